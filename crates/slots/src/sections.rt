// What a used slot may hold: an open section stands only where evaluation goes, and takes its lock's mark away from a lent copy of the
// marks.
ghost use Rattle.std.specs.Prelude.{◌≤◌, length};
ghost use Rattle.slots.specs.Answer.{one_more};
ghost use Rattle.slots.specs.Sections.{open_at, opens_of, Claimed};
ghost use Rattle.slots.specs.Slot.{ThreadSlot, CellSlot};

use crate::closed::closed;
use crate::codes::{OPEN, value};
use crate::way::onward;
use places::byte_at;

// How many locks and cells there are: a location is below its count.
#[derive(Clone, Copy, Debug, PartialEq, Eq)]
pub struct Counts {
    pub locks: usize,
    pub cells: usize,
}

// How many open sections stand at p, one or none, which takes its lock's mark away; None where that mark is not there.
fn claim(s: &[u8], p: usize, marks: &mut [u8]) -> Option<usize>
    requires { p ≤ length s.now }
    ensures { Claimed marks.old (open_at s.now p) marks.new (one_more result) }
{
    if byte_at(s, p) != OPEN {
        return Some(0);
    }
    let l = usize::from(byte_at(s, p + 1));
    if byte_at(marks, l) != 1 {
        return None;
    }
    marks[l] = 0;
    Some(1)
}

// How many open sections are on the way of evaluation: each takes its lock's mark away; None where one is not there.
fn open_sections(s: &[u8], marks: &mut [u8]) -> Option<usize>
    ensures { Claimed marks.old (opens_of s.now) marks.new (one_more result) }
{
    let mut p: usize = 0;
    let mut n: usize = 0;
    while p < s.len() {
        n += claim(s, p, marks)?;
        let m = onward(s, p).at;
        if m == p {
            return Some(n);
        }
        p = m;
    }
    Some(n)
}

// Whether s is one closed expression with locations below the counts and open sections only where evaluation goes, each with its lock's
// mark, which it takes away. The lent stack is as long as a slot may be.
pub fn thread_slot(s: &[u8], counts: Counts, marks: &mut [u8], stack: &mut [u8]) -> bool
    ensures { ThreadSlot counts.locks counts.cells s.now marks.old marks.new stack.old stack.new result }
{
    let Some(n) = closed(s, counts, stack) else {
        return false;
    };
    open_sections(s, marks) == Some(n)
}

// Whether s is one closed value with locations below the counts and no open section. The lent stack is as long as a slot may be.
pub fn cell_slot(s: &[u8], counts: Counts, stack: &mut [u8]) -> bool
    ensures { CellSlot counts.locks counts.cells s.now stack.old stack.new result }
{
    closed(s, counts, stack) == Some(0) && value(byte_at(s, 0))
}
