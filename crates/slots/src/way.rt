// Where evaluation goes in a slot: a path search without memory, since a value is told by its first byte.
ghost use Rattle.std.specs.Prelude.{◌+◌, ◌≤◌, ◌<◌, length};
ghost use Rattle.slots.specs.Codes.{Told};
ghost use Rattle.slots.specs.Answer.{one_more};
ghost use Rattle.slots.specs.Way.{cell_from, aim_at, aim_number, Place, Aim};
ghost use Rattle.slots.specs.WayLoop.{Onward};

use crate::codes::{CELL, READ, WRITE, goes_first, goes_second, value, width};
use crate::walk::skip;
use places::byte_at;

// How far evaluation goes: a place, and where the second part of the code there begins, if both its parts are values and evaluation goes into
// both. To see that the second is a value the first was passed over, and nobody need do so again.
#[derive(Clone, Copy, Debug, PartialEq, Eq)]
pub struct Reached {
    pub at: usize,
    pub second: Option<usize>,
}

// The part into which evaluation goes on from the code at p; p itself where it goes no further. Inlined, so that the answer, which is asked for
// at each code of the way, does not go through memory.
#[inline(always)]
pub(crate) fn onward(s: &[u8], p: usize) -> Reached
    requires { p < length s.now }
    ensures { Onward s.now p result.at result.second }
{
    let here = Reached {
        at: p,
        second: None,
    };
    let c = s[p];
    if !goes_first(c) {
        return here;
    }
    let f = p + width(c);
    if s.len() <= f {
        return here;
    }
    if !value(s[f]) {
        return Reached { at: f, ..here };
    }
    if !goes_second(c) {
        return here;
    }
    let Some(e) = skip(s, f) else {
        return here;
    };
    if s.len() <= e {
        return here;
    }
    if value(s[e]) {
        return Reached {
            second: Some(e),
            ..here
        };
    }
    Reached { at: e, ..here }
}

// The place of the next step of the expression that fills s.
pub fn place(s: &[u8]) -> Reached
    ensures { Place s.now result.at result.second }
{
    let mut p: usize = 0;
    while p < s.len() {
        let n = onward(s, p);
        if n.at == p {
            return n;
        }
        p = n.at;
    }
    Reached {
        at: p,
        second: None,
    }
}

// The cell location at p, if one stands there.
fn cell_from(s: &[u8], p: usize) -> Option<u8>
    requires { p ≤ length s.now + 1 }
    ensures { Told (aim_number (cell_from s.now p)) 256 (one_more result) }
{
    (byte_at(s, p) == CELL).then_some(byte_at(s, p + 1))
}

// The cell that the code at p reads or writes, if it does.
#[tactic(auto, using(crate::specs::WayLoop::aim_goes, crate::specs::WayLoop::aim_no))]
fn aim_at(s: &[u8], p: usize) -> Option<u8>
    requires { p ≤ length s.now }
    ensures { Told (aim_number (aim_at s.now p)) 256 (one_more result) }
{
    match byte_at(s, p) {
        READ | WRITE => cell_from(s, p + 1),
        _ => None,
    }
}

// The cell that the expression that fills s is about to read or write, if it is.
pub fn aim(s: &[u8]) -> Option<u8>
    ensures { Aim s.now result }
{
    aim_at(s, place(s).at)
}
