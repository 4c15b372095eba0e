// The two loads. Inside, they take the card.
ghost use Rattle.plans.specs.Card.{card_of};
ghost use Rattle.loads.specs.Contract.{RawOn, RawLoads, JudgedOn, JudgedLoads};
ghost use Rattle.loads.specs.Loading.{Lays, WasRead, Loads};

use answers::Refusal;
use plans::card::{Card, SIXTEEN};

// The state of one thread with these bytes, where it fits.
fn lay(state: &mut [u8], card: Card, bytes: &[u8])
    ensures { Lays (card_of card) bytes.now state.old state.new }
{
    plans::store::blank(state, card.size());
    plans::store::store(state, card.thread(0), bytes);
    places::put_byte(state, 3, 1);
}

// An image that was read. Its erased form is shorter than the image, so it fits the local bytes; the state is touched once it is known to fit
// the slot.
fn load_erased(image: &[u8], state: &mut [u8], card: Card) -> Result<(), Refusal>
    requires { WasRead image.now }
    ensures { Loads (card_of card) image.now state.old result state.new }
{
    let mut erased = [0u8; 4096];
    let n = crate::erasing::erase(image, &mut erased);
    if card.thread_bytes < n {
        return Err(Refusal::ErasedLong);
    }
    lay(state, card, &erased[..n]);
    Ok(())
}

// On a state buffer that is long enough.
fn load(image: &[u8], state: &mut [u8], card: Card) -> Result<(), Refusal>
    ensures { Loads (card_of card) image.now state.old result state.new }
{
    reading::image::read_image(image)?;
    load_erased(image, state, card)
}

#[tactic(auto, using(crate::proofs::entry::Laws::raw_short, crate::proofs::entry::Laws::raw_long))]
fn raw_on(image: &[u8], state: &mut [u8], card: Card) -> Result<(), Refusal>
    ensures { RawOn (card_of card) image.now state.old result state.new }
{
    if state.len() < card.size() {
        return Err(Refusal::ShortBuffer);
    }
    load(image, state, card)
}

fn judged_on(image: &[u8], state: &mut [u8], work: &mut [u8], card: Card) -> Result<(), Refusal>
    ensures { JudgedOn (card_of card) image.now state.old work.old result state.new work.new }
{
    if state.len() < card.size() || work.len() < 40960 {
        return Err(Refusal::ShortBuffer);
    }
    let mut types = [0u8; 256];
    judging::entry::judge(image, &mut types, work)?;
    load(image, state, card)
}

// The raw load: an image and a state buffer.
#[tactic(auto, using(laws::specs::Cards::sixteen_fits), unfolding(paper::specs::States::sixteen))]
pub fn raw_load(image: &[u8], state: &mut [u8]) -> Result<(), Refusal>
    ensures { RawLoads image.now state.old result state.new }
{
    raw_on(image, state, SIXTEEN)
}

// The judged load: an image, a state buffer and a work buffer.
#[tactic(auto, using(laws::specs::Cards::sixteen_fits), unfolding(paper::specs::States::sixteen))]
pub fn judged_load(image: &[u8], state: &mut [u8], work: &mut [u8]) -> Result<(), Refusal>
    ensures { JudgedLoads image.now state.old work.old result state.new work.new }
{
    judged_on(image, state, work, SIXTEEN)
}
