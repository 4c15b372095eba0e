// The readers of a type's bytes: each answers the place after what it read, or what is wrong and where.
ghost use Rattle.std.specs.Prelude.{◌≡◌, ◌+◌, ◌^◌, leb, ltb, length, get_or};
ghost use Rattle.paper.specs.Base.{word32};
ghost use Rattle.types.specs.Contract.{byte_below, NameRead, SetRead, TypeRead, TypeLed, StatedRead};

use answers::Refusal;
use codes::TypeCode;

// A name's or an index's byte, which is below the number that are bound; `unbound` is what is answered where it is not.
#[inline]
pub fn read_below(s: &[u8], at: usize, bound: u8, unbound: Refusal) -> Result<usize, Refusal>
    ensures { result ≡ byte_below s.now at bound unbound }
{
    if s.len() <= at {
        return Err(Refusal::CutImage(s.len()));
    }
    if s[at] < bound {
        Ok(at + 1)
    } else {
        Err(unbound)
    }
}

// A lock's name.
pub fn read_name(s: &[u8], at: usize, locks: u8) -> Result<usize, Refusal>
    ensures { NameRead s.now at locks result }
{
    read_below(s, at, locks, Refusal::UnboundName(at))
}

// Whether four bytes stand at a place.
pub fn has_four(s: &[u8], at: usize) -> bool
    ensures { result ≡ leb (at + 4) (length s.now) }
{
    4 <= s.len() && at <= s.len() - 4
}

// The byte at a place; 0 past the end.
fn byte_at(s: &[u8], at: usize) -> u8
    ensures { result ≡ get_or s.now at 0 }
{
    if at < s.len() { s[at] } else { 0 }
}

// Four bytes, the highest first; one past the end counts as 0. Where all four are there, which a caller has mostly tested, they are one load.
pub fn number_at(s: &[u8], at: usize) -> u32
    ensures { result ≡ word32 s.now at }
{
    if has_four(s, at) {
        return u32::from_be_bytes([s[at], s[at + 1], s[at + 2], s[at + 3]]);
    }
    if s.len() <= at {
        return 0;
    }
    u32::from_be_bytes([s[at], byte_at(s, at + 1), byte_at(s, at + 2), 0])
}

// Whether a set has no name but the first `locks`. It has bits for 32 names.
fn in_scope(set: u32, locks: u8) -> bool
    ensures { result ≡ ltb set (2 ^ locks) }
{
    32 <= locks || set < 1u32 << locks
}

// A lock set.
pub fn read_set(s: &[u8], at: usize, locks: u8) -> Result<usize, Refusal>
    ensures { SetRead s.now at locks result }
{
    if !has_four(s, at) {
        return Err(Refusal::CutImage(s.len()));
    }
    if in_scope(number_at(s, at), locks) {
        Ok(at + 4)
    } else {
        Err(Refusal::UnboundName(at))
    }
}

// A type before its last part: read whole, where it has none, with the place after it; or the last part's place. No ControlFlow<usize, usize>:
// `Break(p)` and `Continue(p)` don't say which place p is; and no type shared with the reading's Lead, whose last part has a Scope beside its place.
#[derive(Clone, Copy, Debug, PartialEq, Eq)]
pub(crate) enum Lead {
    Whole(usize),
    Last(usize),
}

// The type at `at`, with `left` of the nesting left, up to its last part: a Ref's content, or a Function's result. Cut, or no code: two tests here, in
// read_stated, the reading and the lister, since one function for them in codes, which knows no refusal, would need answers below it and a law for both codes.
#[cycle(leads)]
fn read_lead(s: &[u8], at: usize, locks: u8, left: u8) -> Result<Lead, Refusal>
    ensures { TypeLed s.now at locks left result }
{
    if s.len() <= at {
        return Err(Refusal::CutImage(s.len()));
    }
    let Ok(code) = TypeCode::try_from(s[at]) else {
        return Err(Refusal::NoSuchCode(at));
    };
    if left == 0 {
        return Err(Refusal::OverLimit(at));
    }
    match code {
        TypeCode::Unit | TypeCode::Int => Ok(Lead::Whole(at + 1)),
        TypeCode::Lock | TypeCode::Ref => {
            let p = read_name(s, at + 1, locks)?;
            // One arm for both: an arm for each makes the outer match a jump table; random stated types, Functions among them, then took 47 ns each instead of 44.
            match code {
                TypeCode::Lock => Ok(Lead::Whole(p)),
                _ => Ok(Lead::Last(p)),
            }
        }
        TypeCode::Function => {
            let p = read_type(s, at + 1, locks, left - 1)?;
            Ok(Lead::Last(read_set(s, p, locks)?))
        }
    }
}

// The whole of it: on with the last part, as long as there is one.
#[cycle(leads)]
fn read_type(s: &[u8], at: usize, locks: u8, left: u8) -> Result<usize, Refusal>
    ensures { TypeRead s.now at locks left result }
{
    let mut place = at;
    let mut deep = left;
    loop {
        match read_lead(s, place, locks, deep)? {
            Lead::Whole(p) => {
                return Ok(p);
            }
            Lead::Last(p) => {
                place = p;
                deep -= 1;
            }
        }
    }
}

// A stated type: at most 16 deep and at most 256 bytes. Unit and Int, the most frequent, need no call.
pub fn read_stated(s: &[u8], at: usize, locks: u8) -> Result<usize, Refusal>
    ensures { StatedRead s.now at locks result }
{
    if s.len() <= at {
        return Err(Refusal::CutImage(s.len()));
    }
    let Ok(code) = TypeCode::try_from(s[at]) else {
        return Err(Refusal::NoSuchCode(at));
    };
    if let TypeCode::Unit | TypeCode::Int = code {
        return Ok(at + 1);
    }
    let p = read_type(s, at, locks, 16)?;
    if p <= at + 256 {
        Ok(p)
    } else {
        Err(Refusal::OverLimit(at))
    }
}
