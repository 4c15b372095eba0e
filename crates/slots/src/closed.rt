// Whether one closed expression fills a slot: one pass, on a lent stack as long as the slot.
ghost use Rattle.std.specs.Prelude.{◌≡◌, length};
ghost use Rattle.slots.specs.Answer.{one_more};
ghost use Rattle.slots.specs.Closed.{field_ok, closed_count, Closed};

use crate::codes::{CELL, LOCK, OPEN, VARIABLE, is_code, is_open, width};
use crate::sections::Counts;
use crate::stack::{Part, after, pushes};
use places::byte_at;
use zeros::clear;

// Whether b can stand after the code c: a variable is bound, a lock and a cell are below their counts.
#[tactic(auto, unfolding(crate::specs::Closed::field_ok))]
fn field_ok(counts: Counts, c: u8, b: usize, d: usize) -> bool
    ensures { result ≡ field_ok counts.locks counts.cells c b d }
{
    match c {
        VARIABLE => b < d,
        LOCK | OPEN => b < counts.locks,
        CELL => b < counts.cells,
        _ => true,
    }
}

// How many open sections the closed expression has that the bytes are, if they are one, with locations below the counts.
fn pass(s: &[u8], counts: Counts, stack: &mut [u8]) -> Option<usize>
    requires { length stack.old ≡ length s.now }
    ensures { one_more result ≡ closed_count counts.locks counts.cells s.now }
{
    let mut next = Some(Part { d: 0, sp: 0 });
    let mut n: usize = 0;
    let mut i: usize = 0;
    while let Some(part) = next {
        if s.len() <= i {
            return None;
        }
        let c = s[i];
        if !is_code(c) || !field_ok(counts, c, usize::from(byte_at(s, i + 1)), part.d) {
            return None;
        }
        let w = width(c);
        if s.len() - i < w || stack.len() - part.sp < pushes(c) {
            return None;
        }
        n += usize::from(is_open(c));
        next = after(stack, part, c);
        i += w;
    }
    (s.len() <= i).then_some(n)
}

// The same on a stack that may be longer, which is left with zeros where it was used; None where it is shorter than the slot.
pub(crate) fn closed(s: &[u8], counts: Counts, stack: &mut [u8]) -> Option<usize>
    ensures { Closed counts.locks counts.cells s.now stack.old stack.new (one_more result) }
{
    let n = s.len();
    if stack.len() < n {
        return None;
    }
    let r = pass(s, counts, &mut stack[..n]);
    clear(&mut stack[..n]);
    r
}
