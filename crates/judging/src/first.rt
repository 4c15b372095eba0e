// After the first part: its type stands in the slot one deeper. What is left in the own slot is what the next part needs of it; or the expression's
// type where there is no next part, and then the answer is the expression's, which ends where the part does.
// work and left stay apart, here and in second.rt: between two steps a rule lends work to the judge, so that a struct of both would be made anew for
// each step.
ghost use Rattle.std.specs.Prelude.{◌≡◌, ◌+◌, ◌-◌};
ghost use Rattle.codes.specs.Codes.{type_byte};
ghost use Rattle.judging.specs.Copies.{Ends};
ghost use Rattle.judging.specs.Contract.{Some1, AskedIn, Asked, AnswersIn1, Answers1, AnswersAt1, Tests1, Due};

use crate::numbers::only;
use crate::work::{Typed, slot_of};
use crate::{copies, shift};
use answers::Refusal;
use codes::TypeCode;
use types::stated::number_at;
use types::subtype;
use types::subtype::Mode;

// Whether the part is of the kind due: a Function, a Ref or a Lock.
pub(crate) fn first_due(
    part: usize,
    work: &mut [u8],
    left: u8,
    kind: TypeCode,
) -> Result<(), Refusal>
    requires { Asked Some1 (λ b. Due b (type_byte kind)) work.old left }
    ensures { Tests1 (λ b. Due b (type_byte kind)) part work.old work.new left result }
{
    let from = slot_of(left - 1);
    if work[from] != kind as u8 {
        return Err(Refusal::OtherForm(part));
    }
    copies::copy(work, from, slot_of(left));
    Ok(())
}

// Whether the part is an Int, which is all that is kept of it.
pub(crate) fn first_int(part: usize, work: &mut [u8], left: u8) -> Result<(), Refusal>
    requires { Asked Some1 (λ b. Due b 33) work.old left }
    ensures { Tests1 (λ b. Due b 33) part work.old work.new left result }
{
    if work[slot_of(left - 1)] != TypeCode::Int as u8 {
        return Err(Refusal::OtherForm(part));
    }
    work[slot_of(left)] = TypeCode::Int as u8;
    Ok(())
}

// A fork starts with no lock.
pub(crate) fn first_fork(at: usize, work: &mut [u8], left: u8, a: Typed) -> Result<Typed, Refusal>
    requires { Asked Some1 (λ b. b ≡ 9) work.old left }
    ensures { AnswersAt1 (λ b. b ≡ 9) at work.old work.new left a.need a.end result }
{
    if a.need != 0 {
        return Err(Refusal::ForkNeeds(at));
    }
    work[slot_of(left)] = TypeCode::Unit as u8;
    Ok(a)
}

// Out from under the new lock, which neither the type nor the need may mention.
pub(crate) fn first_lock(at: usize, work: &mut [u8], left: u8, a: Typed) -> Result<Typed, Refusal>
    requires { Asked Some1 (λ b. b ≡ 10) work.old left }
    ensures { AnswersAt1 (λ b. b ≡ 10) at work.old work.new left a.need a.end result }
{
    let to = slot_of(left);
    copies::copy(work, slot_of(left - 1), to);
    shift::lower(work, to).ok_or(Refusal::LockInType(at))?;
    if a.need % 2 == 1 {
        return Err(Refusal::LockInNeed(at));
    }
    Ok(Typed {
        need: a.need / 2,
        ..a
    })
}

// A read gives the content, and needs the cell's lock.
pub(crate) fn first_read(part: usize, work: &mut [u8], left: u8, a: Typed) -> Result<Typed, Refusal>
    requires { Asked Some1 (λ b. b ≡ 7) work.old left }
    ensures { Answers1 (λ b. b ≡ 7) part work.old work.new left a.need a.end result }
{
    let from = slot_of(left - 1);
    if work[from] != TypeCode::Ref as u8 {
        return Err(Refusal::OtherForm(part));
    }
    let k = work[from + 1];
    copies::copy(work, from + 2, slot_of(left));
    Ok(Typed {
        need: a.need | only(k),
        ..a
    })
}

// A new cell's content is below the stated type, behind which it stands.
pub(crate) fn first_cell(
    img: &[u8],
    at: usize,
    part: usize,
    work: &mut [u8],
    left: u8,
    a: Typed,
) -> Result<Typed, Refusal>
    requires asked_in { AskedIn Some1 (λ b. b ≡ 6) img.now at work.old left }
    requires ends { Ends img.now (at + 2) part }
    ensures { AnswersIn1 (λ b. b ≡ 6) img.now at part work.old work.new left a.need a.end result }
{
    let from = slot_of(left - 1);
    subtype::related(work, from, img, at + 2, Mode::Below).ok_or(Refusal::NotSubtype(part))?;
    let size = part - (at + 2);
    if 254 < size {
        return Err(Refusal::OwnTypeLong(at));
    }
    let to = slot_of(left);
    let name = img[at + 1];
    work[to] = TypeCode::Ref as u8;
    work[to + 1] = name;
    copies::copy_in(img, at + 2, size, work, to + 2);
    Ok(a)
}

// A function needs nothing itself: its body, which stands behind the stated type and the set's four bytes, needs what the set declares. Its type
// is put together, in a buffer of its own, from the argument, the set and the result.
pub(crate) fn first_lam(
    img: &[u8],
    at: usize,
    part: usize,
    work: &mut [u8],
    left: u8,
    a: Typed,
) -> Result<Typed, Refusal>
    requires asked_in { AskedIn Some1 (λ b. b ≡ 4) img.now at work.old left }
    requires ends { Ends img.now (at + 1) (part - 4) }
    ensures { AnswersIn1 (λ b. b ≡ 4) img.now at part work.old work.new left a.need a.end result }
{
    let p = part - 4;
    let set = number_at(img, p);
    if a.need & u64::from(set) != a.need {
        return Err(Refusal::UndeclaredNeed(at));
    }
    let from = slot_of(left - 1);
    let q = copies::skip(work, from);
    let size = p - (at + 1);
    let rest = q - from;
    if 251 < size + rest {
        return Err(Refusal::OwnTypeLong(at));
    }
    let mut own = [0u8; 256];
    own[0] = TypeCode::Function as u8;
    copies::copy_in(img, at + 1, size, &mut own, 1);
    shift::put4(&mut own, size + 1, set);
    copies::copy_in(work, from, rest, &mut own, size + 5);
    copies::copy_in(&own, 0, size + rest + 5, work, slot_of(left));
    Ok(Typed { need: 0, ..a })
}
