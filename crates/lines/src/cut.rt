// What stands before and after the first of a byte: with a line's end for the byte a line and the lines after it, with a blank
// a field and the fields after it.
ghost use Rattle.std.specs.Prelude.{◌≡◌};
ghost use Rattle.lines.specs.Cut.{first_place, before_first, after_first, Parted};

pub const BLANK: u8 = b' ';

pub const LINE_END: u8 = b'\n';

// By a loop, which an edit can make pass over a byte with the places kept; by `position` it cannot. And apart from its callers: inlined, the
// loop counts the ends of their slices too at each byte.
#[inline(never)]
#[tactic(auto, using(crate::specs::CutLaws::places))]
fn first(s: &[u8], b: u8) -> Option<usize>
    ensures { result ≡ first_place b s.now }
{
    for (i, x) in s.iter().enumerate() {
        if *x == b {
            return Some(i);
        }
    }
    None
}

// All of s where it has no b.
#[tactic(auto, using(crate::specs::CutLaws::cuts))]
pub fn before(s: &[u8], b: u8) -> &[u8]
    ensures { result.now ≡ before_first b s.now }
{
    match first(s, b) {
        Some(n) => &s[..n],
        None => s,
    }
}

// Nothing where s has no b.
#[tactic(auto, using(crate::specs::CutLaws::cuts))]
pub fn after(s: &[u8], b: u8) -> &[u8]
    ensures { result.now ≡ after_first b s.now }
{
    match first(s, b) {
        Some(n) => &s[n + 1..],
        None => &[],
    }
}

// Both, by one look at the bytes: a loop over lines or fields that takes the one and then the other looks at each byte twice.
#[tactic(auto, using(crate::specs::CutLaws::cuts))]
pub fn parted(s: &[u8], b: u8) -> (&[u8], &[u8])
    ensures { Parted b s.now result.0.now result.1.now }
{
    match first(s, b) {
        Some(n) => (&s[..n], &s[n + 1..]),
        None => (s, &[]),
    }
}
