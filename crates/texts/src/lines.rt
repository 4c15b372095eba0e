// The two forms of the judge's line, first in a lent buffer, as far as there is room. Each answers the place after its newline, as `writing` does,
// or None where not all of it fits.
ghost use Rattle.answers.specs.Numbers as answers;
ghost use Rattle.writing.specs.Written.{Written};
ghost use Rattle.texts.specs.Lines.{accept_line, refuse_line};

use answers::Refusal;
use writing::{fill, hex, number};

// `accept` and the type, whose bytes are lent.
pub(crate) fn accept_line(bytes: &[u8], out: &mut [u8]) -> Option<usize>
    ensures { Written (accept_line bytes.now) out.old out.new result }
{
    let digits = fill(b"accept ", out, 0)?;
    let end = hex(bytes, out, digits)?;
    fill(b"\n", out, end)
}

// `refuse`, number, place.
pub(crate) fn refuse_line(refusal: Refusal, out: &mut [u8]) -> Option<usize>
    ensures { Written (refuse_line (answers.number refusal) (answers.place refusal)) out.old out.new result }
{
    let first = fill(b"refuse ", out, 0)?;
    let second = number(u64::from(refusal.number()), b' ', out, first)?;
    number(refusal.place() as u64, b'\n', out, second)
}
