// The race finder (document 01, "The running state"): the first pair of threads that are about to read or write one cell.
ghost use Rattle.std.specs.Prelude.{◌+◌, ◌≤◌, length};
ghost use Rattle.paper.specs.Base.{word16};
ghost use Rattle.slots.specs.Way.{Aim};
ghost use Rattle.states.specs.Rows.{in_slot};
ghost use Rattle.states.specs.Pairs.{ThreadsIn, aim_by, PairIs};

use places::two_at;
use plans::card::{Card, Slot};
use slots::way::aim;

// Two threads, by number, and the cell that both are about to read or write.
#[derive(Clone, Copy, Debug, PartialEq, Eq)]
pub struct Pair {
    pub first: usize,
    pub second: usize,
    pub cell: usize,
}

// The cell that the thread in this slot is about to read or write, if it is.
fn aim_of(s: &[u8], slot: Slot) -> Option<u8>
    requires { slot.base + word16 s.now slot.place ≤ length s.now }
    ensures { Aim (in_slot slot.base slot.place s.now) result }
{
    let end = slot.base + two_at(s, slot.place);
    aim(&s[slot.base..end])
}

// "the first pair i < j, by i and then j, both about to read or write one cell, and that cell; or none", of n threads
pub(crate) fn first_pair(s: &[u8], card: Card, n: u8) -> Option<Pair>
    requires { ThreadsIn card.thread_bytes s.now n }
    ensures { PairIs (aim_by card.thread_bytes s.now) n result }
{
    // Loops in a loop: document 01 has the order, "i < j, by i and then j", and `First` of specs/Pairs speaks of both numbers.
    let mut found = None;
    'pairs: for i in 0..n {
        let Some(cell) = aim_of(s, card.thread(i)) else {
            continue;
        };
        for j in i + 1..n {
            if aim_of(s, card.thread(j)) == Some(cell) {
                found = Some(Pair {
                    first: usize::from(i),
                    second: usize::from(j),
                    cell: usize::from(cell),
                });
                break 'pairs;
            }
        }
    }
    found
}
