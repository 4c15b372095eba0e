// The erased form of an image that was read. In prefix order that is one walk from code to code: each code is copied, with a number's or a
// variable's field, and types, sets and the lock name of 06 are passed over. So nothing is kept of the nesting.
ghost use Rattle.std.specs.Prelude.{◌≡◌, ◌<◌};
ghost use Rattle.loads.specs.Steps.{kept, TypePassed, PartsAt};
ghost use Rattle.loads.specs.Walk.{Erasable, Erased};

use codes::ExpCode;

// How many bytes of an expression with this code stay: the code, and a number or an index.
#[tactic(auto, using(crate::proofs::erasing::Parts::kept_code))]
fn stays(code: ExpCode) -> usize
    ensures { result ≡ kept code }
{
    match code {
        ExpCode::Number => 5,
        ExpCode::Variable => 2,
        _ => 1,
    }
}

// The place after the stated type at `at`. The image was read, so its names are bound, under 32 locks at most.
#[tactic(auto, using(crate::proofs::erasing::Types::type_passed))]
fn after_type(s: &[u8], at: usize) -> usize
    ensures { TypePassed s.now at result }
{
    types::stated::read_stated(s, at, 32).unwrap_or(at)
}

// Where the parts of the expression at `at` begin.
#[tactic(auto, using(crate::proofs::erasing::Parts::no_fields))]
fn parts_at(s: &[u8], at: usize, code: ExpCode) -> usize
    requires { at < 4096 }
    ensures { PartsAt s.now at code result }
{
    match code {
        ExpCode::Number => at + 5,
        ExpCode::Variable => at + 2,
        ExpCode::Function => after_type(s, at + 1) + 4,
        ExpCode::NewCell => after_type(s, at + 2),
        ExpCode::If => after_type(s, at + 1),
        _ => at + 1,
    }
}

// The erased form, first in `out`; how many bytes it has. It is shorter than the image.
pub(crate) fn erase(image: &[u8], out: &mut [u8]) -> usize
    requires { Erasable image.now out.old }
    ensures { Erased image.now out.new result }
{
    let mut at = 3;
    let mut n = 0;
    // Both places go on by the widths of expressions, which no iterator counts. The image was read, so a code stands at each.
    while at < image.len() {
        let code = ExpCode::try_from(image[at]).unwrap();
        let stay = stays(code);
        out[n..n + stay].copy_from_slice(&image[at..at + stay]);
        n += stay;
        at = parts_at(image, at, code);
    }
    n
}
