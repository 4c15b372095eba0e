// Passing over an expression without memory: how many expressions are due is all there is to know. Here and in the passes of closed.rt and put.rt
// the index goes on by the width of each code, and in sections.rt and way.rt (`while p < s.len()`) from a part to the part in it that evaluation
// goes into, so it is no count that a `for` could make.
ghost use Rattle.slots.specs.Walk.{Skipped};

use crate::codes::{is_code, kids, width};

// The place after the expression that begins at `at`, if one does.
pub fn skip(s: &[u8], at: usize) -> Option<usize>
    ensures { Skipped s.now at result }
{
    let mut i = at;
    let mut need: usize = 1;
    while 0 < need {
        if s.len() <= i {
            return None;
        }
        let c = s[i];
        if !is_code(c) {
            return None;
        }
        let w = width(c);
        if s.len() - i < w {
            return None;
        }
        need = need - 1 + kids(c);
        i += w;
    }
    Some(i)
}
