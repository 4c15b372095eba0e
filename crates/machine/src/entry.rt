// The public step, on the card of document 01.
ghost use Rattle.machine.specs.Public.{Steps};

use crate::answer::{Made, NoStep};
use crate::scratch::Scratch;
use crate::step::step_held;
use plans::card::SIXTEEN;
use states::check_state;

// One step of a thread: answers 1 and 18 first, then the machine's. Where no step is made the state is unchanged.
#[tactic(auto, using(laws::specs::Cards::sixteen_fits), unfolding(paper::specs::States::sixteen))]
pub fn step(state: &mut [u8], thread: u64) -> Result<Made, NoStep>
    ensures { Steps state.old thread state.new result }
{
    check_state(state)?;
    step_held(state, thread, SIXTEEN, &mut Scratch::new())
}
