// What a step changes in the buffer beside its thread: a slot, a count, a mark. What is written comes from a copy of the part that makes the
// step, never from the buffer itself.
ghost use Rattle.std.specs.Prelude.{◌<◌};
ghost use Rattle.paper.specs.Base.{at};
ghost use Rattle.plans.specs.Card.{card_of};
ghost use Rattle.machine.specs.Altering.{CellPut, ThreadAdded, CellAdded, Altering, Alters};

use crate::act::Also;
use places::{byte_at, put_byte};
use plans::card::Card;
use plans::store::store;

fn set_cell(state: &mut [u8], card: Card, j: u8, bytes: &[u8])
    ensures { CellPut (card_of card) j bytes.now state.old state.new }
{
    store(state, card.cell(j), bytes);
}

// The next thread or cell: its slot, then the count.
fn new_thread(state: &mut [u8], card: Card, i: u8, bytes: &[u8])
    requires i_bound { i < 255 }
    ensures { ThreadAdded (card_of card) i bytes.now state.old state.new }
{
    store(state, card.thread(i), bytes);
    put_byte(state, 3, i + 1);
}

fn new_cell(state: &mut [u8], card: Card, bytes: &[u8])
    requires state_bound { at state.old 4 < 255 }
    ensures { CellAdded (card_of card) (at state.old 4) bytes.now state.old state.new }
{
    let count = byte_at(state, 4);
    set_cell(state, card, count, bytes);
    put_byte(state, 4, count + 1);
}

// What changes beside the thread, by the bytes s of the part that makes the step.
pub(crate) fn change(state: &mut [u8], card: Card, s: &[u8], also: Also)
    requires altering { Altering (card_of card) state.old s.now also }
    ensures { Alters (card_of card) s.now also state.old state.new }
{
    match also {
        Also::Nothing => {}
        Also::NewCell => new_cell(state, card, &s[1..]),
        Also::SetCell(j, a) => set_cell(state, card, j, &s[a..]),
        Also::NewLock => {
            let count = byte_at(state, 5);
            put_byte(state, 5, count + 1);
        }
        Also::Taken(l) => put_byte(state, 6 + usize::from(l), 1),
        Also::Released(l) => put_byte(state, 6 + usize::from(l), 0),
        Also::NewThread(i) => new_thread(state, card, i, &s[1..]),
    }
}
