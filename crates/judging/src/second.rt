// After the second and third parts: the part's type stands in the slot one deeper, and in the own slot what was left of the first. a and b are what
// the first two parts come to: the second starts where the first ends, and the third where the second ends.
ghost use Rattle.std.specs.Prelude.{◌≡◌, ◌-◌, ◌≤◌, Ok};
ghost use Rattle.judging.specs.Copies.{Movable};
ghost use Rattle.judging.specs.Work.{slot};
ghost use Rattle.judging.specs.Contract.{Some2, AskedIn, Asked, Answers2, AnyPart2, TestsIn2, AskedIn3, AnswersIn3, Goes};

use crate::copies;
use crate::numbers::{less, only};
use crate::work::{Typed, slot_of};
use answers::Refusal;
use codes::TypeCode;
use types::stated::number_at;
use types::subtype;
use types::subtype::Mode;

// An argument is below the function's, and the result is the function's.
pub(crate) fn second_app(work: &mut [u8], left: u8, a: Typed, b: Typed) -> Result<Typed, Refusal>
    requires { Asked Some2 (λ b. b ≡ 5) work.old left }
    ensures { Answers2 (λ b. b ≡ 5) a.end work.old work.new left a.need b.need b.end result }
{
    let to = slot_of(left);
    let from = slot_of(left - 1);
    subtype::related(work, from, work, to + 1, Mode::Below).ok_or(Refusal::NotSubtype(a.end))?;
    let p = copies::skip(work, to + 1);
    let set = number_at(work, p);
    copies::copy(work, p + 4, to);
    Ok(Typed {
        need: a.need | b.need | u64::from(set),
        ..b
    })
}

// A written value is below the content, and the cell's lock is needed.
pub(crate) fn second_write(work: &mut [u8], left: u8, a: Typed, b: Typed) -> Result<Typed, Refusal>
    requires { Asked Some2 (λ b. b ≡ 8) work.old left }
    ensures { Answers2 (λ b. b ≡ 8) a.end work.old work.new left a.need b.need b.end result }
{
    let to = slot_of(left);
    let from = slot_of(left - 1);
    subtype::related(work, from, work, to + 2, Mode::Below).ok_or(Refusal::NotSubtype(a.end))?;
    let k = work[to + 1];
    work[to] = TypeCode::Unit as u8;
    Ok(Typed {
        need: a.need | b.need | only(k),
        ..b
    })
}

// A section gives its lock to the second part, and to nothing else.
pub(crate) fn second_sync(work: &mut [u8], left: u8, a: Typed, b: Typed) -> Typed
    requires { Asked Some2 (λ b. b ≡ 11) work.old left }
    ensures { AnyPart2 (λ b. b ≡ 11) work.old work.new left a.need b.need b.end (Ok result) }
{
    let to = slot_of(left);
    let k = work[to + 1];
    copies::copy(work, slot_of(left - 1), to);
    Typed {
        need: a.need | less(b.need, k),
        ..b
    }
}

// Of a let and of a then: the second part's type is the expression's, and what both need is needed. A call of its own would cost 3 instructions in a
// hundred of the typing.
#[inline(always)]
pub(crate) fn second_last(work: &mut [u8], left: u8, a: Typed, b: Typed) -> Typed
    requires { (1 ≤ left) × (left ≤ 64) × Movable work.old (slot (left - 1)) (slot left) }
    ensures { Goes work.old work.new left a.need b.need b.end result }
{
    copies::copy(work, slot_of(left - 1), slot_of(left));
    Typed {
        need: a.need | b.need,
        ..b
    }
}

// Both parts are Ints.
pub(crate) fn second_add(work: &mut [u8], left: u8, a: Typed, b: Typed) -> Result<Typed, Refusal>
    requires { Asked Some2 (λ b. b ≡ 14) work.old left }
    ensures { Answers2 (λ b. b ≡ 14) a.end work.old work.new left a.need b.need b.end result }
{
    if work[slot_of(left - 1)] != TypeCode::Int as u8 {
        return Err(Refusal::OtherForm(a.end));
    }
    work[slot_of(left)] = TypeCode::Int as u8;
    Ok(Typed {
        need: a.need | b.need,
        ..b
    })
}

// Whether the branch that is taken where the number is not 0 is below the stated type. Nothing of it is needed later: Unit is kept.
pub(crate) fn second_cond(
    img: &[u8],
    at: usize,
    part: usize,
    work: &mut [u8],
    left: u8,
) -> Result<(), Refusal>
    requires { AskedIn Some2 (λ b. b ≡ 15) img.now at work.old left }
    ensures { TestsIn2 (λ b. b ≡ 15) img.now at part work.old work.new left result }
{
    let from = slot_of(left - 1);
    subtype::related(work, from, img, at + 1, Mode::Below).ok_or(Refusal::NotSubtype(part))?;
    work[slot_of(left)] = TypeCode::Unit as u8;
    Ok(())
}

// So is the other branch, and the stated type is the conditional's.
pub(crate) fn after_third(
    img: &[u8],
    at: usize,
    part: usize,
    work: &mut [u8],
    left: u8,
    kept: u64,
    c: Typed,
) -> Result<Typed, Refusal>
    requires { AskedIn3 img.now at work.old left }
    ensures { AnswersIn3 img.now at part work.old work.new left kept c.need c.end result }
{
    let from = slot_of(left - 1);
    subtype::related(work, from, img, at + 1, Mode::Below).ok_or(Refusal::NotSubtype(part))?;
    let p = copies::skip(img, at + 1);
    copies::copy_in(img, at + 1, p - (at + 1), work, slot_of(left));
    Ok(Typed {
        need: kept | c.need,
        ..c
    })
}
