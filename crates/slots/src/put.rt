// A new expression, made of an old one's bytes, into a lent buffer: a value put for the outermost variable.
ghost use Rattle.std.specs.Prelude.{◌≡◌, ◌++◌, ◌+◌, ◌*◌, ◌≤◌, ◌<◌, length, take};
ghost use Rattle.writing.specs.Written.{Written};
ghost use Rattle.slots.specs.Put.{hit, put_of, Put};

use crate::codes::{VARIABLE, width};
use crate::stack::{Part, after, ended};
use writing::{fill, fill_both, least};
use zeros::clear;

// Whether a variable stands at i, and is d.
#[tactic(auto, unfolding(crate::specs::Put::hit))]
fn is_hit(src: &[u8], i: usize, d: usize) -> bool
    requires { i < length src.now }
    ensures { result ≡ hit src.now i d }
{
    src[i] == VARIABLE && i + 1 < src.len() && usize::from(src[i + 1]) == d
}

// v for the outermost variable of the expression that stands first in src, to dst from `at` on, on a stack twice as long as src: no code puts
// more than two entries on it. What v is not put into is copied in stretches, each from the last variable that it was put for up to the next.
fn pass(src: &[u8], v: &[u8], dst: &mut [u8], at: usize, stack: &mut [u8]) -> Option<usize>
    requires at_in_bounds { at ≤ length dst.old }
    requires stack_len { length stack.old ≡ 2 * length src.now }
    ensures { Written (take at dst.old ++ put_of src.now v.now) dst.old dst.new result }
{
    let mut next = Some(Part { d: 0, sp: 0 });
    let mut out = at;
    let mut from: usize = 0;
    let mut i: usize = 0;
    while i < src.len() {
        let Some(part) = next else {
            return fill(&src[from..i], dst, out);
        };
        if is_hit(src, i, part.d) {
            out = fill_both(&src[from..i], v, dst, out)?;
            next = ended(stack, part);
            i += 2;
            from = i;
            continue;
        }
        let c = src[i];
        next = after(stack, part, c);
        i += width(c);
    }
    fill(&src[from..], dst, out)
}

// The bytes of the expression that stands first in src with v for its outermost variable, to dst from `at` on as far as there is room: the
// place after them, or None where not all of them fit; no bytes where the lent stack is shorter than twice src. The stack is left with zeros
// where it was used. Whether an expression stands there is not asked: its bytes are passed once.
pub fn put(src: &[u8], v: &[u8], dst: &mut [u8], at: usize, stack: &mut [u8]) -> Option<usize>
    ensures { Put src.now v.now dst.old at dst.new stack.old stack.new result }
{
    let n = src.len();
    let from = least(at, dst.len());
    if stack.len() / 2 < n {
        return Some(from);
    }
    let room = 2 * n;
    let r = pass(src, v, dst, from, &mut stack[..room]);
    clear(&mut stack[..room]);
    r
}
