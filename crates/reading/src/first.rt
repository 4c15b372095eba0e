// An expression, read from left to right: its code, its own fields, then its parts. The code is looked at once, in `read_lead`: asked again for
// its fields, its parts and what they are under, it cost a third of the time of this reading, in branches that no processor foresees.
// `Ok(f()?)` makes an answer anew: handed on as it is, it would be copied through memory.
ghost use Rattle.std.specs.Prelude.{◌≡◌, ◌<◌};
ghost use Rattle.answers.specs.Said.{said};
ghost use Rattle.types.specs.Told.{told};
ghost use Rattle.paper.specs.Reading.{word, index, read_exp};
ghost use Rattle.reading.specs.Contract.{function_fields, cell_fields, first_part, two_of_if, Led};

use crate::scope::Scope;
use answers::Refusal;
use codes::ExpCode;
use types::stated::{has_four, read_below, read_name, read_set, read_stated};

// An expression before its last part: read whole, where it has none, with the place after it; or the last part's place, and what that stands under.
// No ControlFlow: `Break(p)` and `Continue((p, under))` don't say what p is the place of.
#[derive(Clone, Copy, Debug, PartialEq, Eq)]
pub(crate) enum Lead {
    Whole(usize),
    Last(usize, Scope),
}

// A number's four bytes.
fn read_number(s: &[u8], at: usize) -> Result<usize, Refusal>
    ensures { said result ≡ told (word s.now at) }
{
    if has_four(s, at) {
        Ok(at + 4)
    } else {
        Err(Refusal::CutImage(s.len()))
    }
}

// A variable's index.
fn read_index(s: &[u8], at: usize, vars: u8) -> Result<usize, Refusal>
    ensures { said result ≡ told (index s.now vars at) }
{
    read_below(s, at, vars, Refusal::UnboundVariable(at))
}

// A function's fields: the argument's type and the lock set.
fn function_fields(s: &[u8], at: usize, locks: u8) -> Result<usize, Refusal>
    ensures { said result ≡ function_fields locks s.now at }
{
    let p = read_stated(s, at, locks)?;
    Ok(read_set(s, p, locks)?)
}

// A new cell's fields: the lock's name and the content's type.
fn cell_fields(s: &[u8], at: usize, locks: u8) -> Result<usize, Refusal>
    ensures { said result ≡ cell_fields locks s.now at }
{
    let p = read_name(s, at, locks)?;
    Ok(read_stated(s, p, locks)?)
}

// The first of two parts: a function of its own, so that the room for its answer is cleared where a part is read and not for each expression.
#[cycle(leads)]
fn first_part(s: &[u8], at: usize, under: Scope) -> Result<usize, Refusal>
    requires { 0 < under.left }
    ensures { said result ≡ first_part under.vars under.locks under.left s.now at }
{
    Ok(read_exp(s, at, under.part())?)
}

// An if before its last part: the result's type, then two parts.
#[cycle(leads)]
fn two_of_if(s: &[u8], at: usize, under: Scope) -> Result<usize, Refusal>
    requires { 0 < under.left }
    ensures { said result ≡ two_of_if under.vars under.locks under.left s.now at }
{
    let p = read_stated(s, at, under.locks)?;
    let q = read_exp(s, p, under.part())?;
    Ok(read_exp(s, q, under.part())?)
}

// The expression at `at`, up to its last part. Of its code: 5, 4, then 7. What an arm calls is short or called nowhere else, so that the compiler
// takes it in.
#[cycle(leads)]
fn read_lead(s: &[u8], at: usize, under: Scope) -> Result<Lead, Refusal>
    ensures { Led s.now at under result }
{
    if s.len() <= at {
        return Err(Refusal::CutImage(s.len()));
    }
    let Ok(code) = ExpCode::try_from(s[at]) else {
        return Err(Refusal::NoSuchCode(at));
    };
    if under.left == 0 {
        return Err(Refusal::OverLimit(at));
    }
    match code {
        ExpCode::Unit => Ok(Lead::Whole(at + 1)),
        ExpCode::Number => Ok(Lead::Whole(read_number(s, at + 1)?)),
        ExpCode::Variable => Ok(Lead::Whole(read_index(s, at + 1, under.vars)?)),
        ExpCode::Function => Ok(Lead::Last(function_fields(s, at + 1, under.locks)?, under.body())),
        ExpCode::NewCell => Ok(Lead::Last(cell_fields(s, at + 1, under.locks)?, under.part())),
        ExpCode::Read | ExpCode::Fork => Ok(Lead::Last(at + 1, under.part())),
        ExpCode::NewLock => {
            if under.locks < 32 {
                Ok(Lead::Last(at + 1, under.locked()))
            } else {
                Err(Refusal::OverLimit(at))
            }
        }
        ExpCode::If => Ok(Lead::Last(two_of_if(s, at + 1, under)?, under.part())),
        ExpCode::Let => Ok(Lead::Last(first_part(s, at + 1, under)?, under.body())),
        ExpCode::Apply | ExpCode::Write | ExpCode::Section | ExpCode::Then | ExpCode::Add => {
            Ok(Lead::Last(first_part(s, at + 1, under)?, under.part()))
        }
    }
}

// The whole of it: on with the last part, as long as there is one.
#[cycle(leads)]
pub(crate) fn read_exp(s: &[u8], at: usize, under: Scope) -> Result<usize, Refusal>
    ensures { said result ≡ told (read_exp 1 under.left s.now under.locks under.vars at) }
{
    let mut place = at;
    let mut below = under;
    loop {
        match read_lead(s, place, below)? {
            Lead::Whole(p) => {
                return Ok(p);
            }
            Lead::Last(p, part) => {
                place = p;
                below = part;
            }
        }
    }
}
