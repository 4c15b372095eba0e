// The lister (document 01): the next expression code of an image, passing over its own fields and stated types. It tells only that no such code
// is there and that the end cuts something, so it tests no header, depth, size or name.
#![tactic(auto)]

ghost use Rattle.std.specs.Prelude.{◌≡◌, [], ◌∷◌, ◌<◌};
ghost use Rattle.std.specs.Option.{option_transpose};
ghost use Rattle.codes.specs.Codes.{exp_byte};
ghost use Rattle.paper.specs.Lister.{a_type, exp_fields};
ghost use Rattle.lister.specs.Means.{Lists, stands, reader_at, Advances};
ghost use Rattle.lister.specs.Passing.{Passes, Takes};
ghost use Rattle.lister.specs.Stated.{Opens};

use answers::Refusal;
use codes::{ExpCode, TypeCode};

// An expression's code, its place, and the place behind the fields that it passes over.
#[derive(Clone, Copy, Debug, PartialEq, Eq)]
pub struct Item {
    pub code: ExpCode,
    pub place: usize,
    pub next: usize,
}

// The place after `count` bytes.
fn past_bytes(image: &[u8], at: usize, count: usize) -> Result<usize, Refusal>
    requires { 0 < count }
    ensures { Takes image.now count at result }
{
    if image.len().saturating_sub(at) < count {
        return Err(Refusal::CutImage(image.len()));
    }
    Ok(at + count)
}

// A type's code, and the place after it and its name byte. An arm a code: where codes share one, the caller's match is made a second time.
#[tactic(auto, using(crate::proofs::Rules::names), unfolding(paper::specs::Lister::type_fields))]
fn past_name(image: &[u8], at: usize) -> Result<(TypeCode, usize), Refusal>
    ensures { Opens image.now at result }
{
    let Some(&byte) = image.get(at) else {
        return Err(Refusal::CutImage(image.len()));
    };
    let Ok(code) = TypeCode::try_from(byte) else {
        return Err(Refusal::NoSuchCode(at));
    };
    match code {
        TypeCode::Function => Ok((TypeCode::Function, at + 1)),
        TypeCode::Ref => Ok((TypeCode::Ref, past_bytes(image, at + 1, 1)?)),
        TypeCode::Lock => Ok((TypeCode::Lock, past_bytes(image, at + 1, 1)?)),
        TypeCode::Unit => Ok((TypeCode::Unit, at + 1)),
        TypeCode::Int => Ok((TypeCode::Int, at + 1)),
    }
}

// Past a type of any depth, with no recursion. `open` counts the Functions whose argument is being read: behind each one's
// argument a set and a result are due, so the count says all that is due.
#[tactic(auto, using(crate::proofs::Rules::types), unfolding(crate::specs::Stated::Opens))]
fn past_type(image: &[u8], mut at: usize) -> Result<usize, Refusal>
    ensures { Passes image.now (a_type ∷ []) at result }
{
    let mut open: usize = 0;
    loop {
        let (code, next) = past_name(image, at)?;
        at = match code {
            TypeCode::Function => {
                open += 1;
                next
            }
            TypeCode::Ref => next,
            TypeCode::Unit | TypeCode::Int | TypeCode::Lock => {
                if open == 0 {
                    return Ok(next);
                }
                open -= 1;
                past_bytes(image, next, 4)?
            }
        };
    }
}

// The fields of the table that are no expressions, after the code of an expression.
#[tactic(auto, using(crate::proofs::Rules::fields), unfolding(paper::specs::Lister::exp_fields))]
fn past_fields(image: &[u8], code: ExpCode, at: usize) -> Result<usize, Refusal>
    ensures { Passes image.now (exp_fields 1 (exp_byte code)) at result }
{
    match code {
        ExpCode::Number => past_bytes(image, at, 4),
        ExpCode::Variable => past_bytes(image, at, 1),
        ExpCode::Function => past_bytes(image, past_type(image, at)?, 4),
        ExpCode::NewCell => past_type(image, past_bytes(image, at, 1)?),
        ExpCode::If => past_type(image, at),
        _ => Ok(at),
    }
}

// What stands at a place, for a caller that keeps the place itself; none at the end of the image.
#[tactic(auto, using(crate::proofs::Rules::items))]
pub fn next(image: &[u8], at: usize) -> Result<Option<Item>, Refusal>
    ensures { Lists image.now at result }
{
    let Some(&byte) = image.get(at) else {
        return Ok(None);
    };
    let Ok(code) = ExpCode::try_from(byte) else {
        return Err(Refusal::NoSuchCode(at));
    };
    let next = past_fields(image, code, at + 1)?;
    Ok(Some(Item {
        code,
        place: at,
        next,
    }))
}

// "a reader that knows the image and the place it has reached"
#[derive(Clone, Copy, Debug, PartialEq, Eq)]
pub struct Reader<'a> {
    pub image: &'a [u8],
    pub at: usize,
}

impl<'a> Reader<'a> {
    // A reader at the start: "starting at 3".
    pub fn new(image: &'a [u8]) -> Reader<'a>
        ensures { result ≡ reader_at image.entry 3 }
    {
        Reader { image, at: 3 }
    }

    // The place that the reader has reached.
    pub fn place(self) -> usize
        ensures { result ≡ self.entry.at }
    {
        self.at
    }

    // What stands at the place that the reader has reached.
    pub fn here(self) -> Result<Option<Item>, Refusal>
        ensures { Lists self.entry.image.now self.entry.at result }
    {
        next(self.image, self.at)
    }

    // The next item; the reader moves on past a code, and else stays where it was.
    pub fn advance(&mut self) -> Result<Option<Item>, Refusal>
        ensures { Advances self.old result self.new }
    {
        let item = next(self.image, self.at);
        if let Ok(Some(found)) = item {
            self.at = found.next;
        }
        item
    }
}

// The items in order; a refusal comes again at each call, since the reader stays at it.
impl<'a> Iterator for Reader<'a> {
    type Item = Result<Item, Refusal>;

    ghost next_gives = { λ before r after. Advances before (option_transpose r) after };

    fn next(&mut self) -> Option<Result<Item, Refusal>> {
        self.advance().transpose()
    }
}

// The first item of an image: a caller needs no reader of its own.
pub fn first(image: &[u8]) -> Result<Option<Item>, Refusal>
    ensures { Lists image.now 3 result }
{
    Reader::new(image).here()
}
