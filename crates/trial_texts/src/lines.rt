// The lines behind the judge's, at an offset of a lent buffer, as far as there is room. Each answers the place after its newline, as `writing` does,
// or None where not all of it fits.
ghost use Rattle.std.specs.Prelude.{◌++◌, take};
ghost use Rattle.paper.specs.Texts.{three};
ghost use Rattle.writing.specs.Written.{Written};
ghost use Rattle.trial_texts.specs.Lines.{load_line, race_line};

use writing::{fill, number};

// Three numbers.
pub(crate) fn three(a: u64, b: u64, c: u64, out: &mut [u8], at: usize) -> Option<usize>
    ensures { Written (take at out.old ++ three a b c) out.old out.new result }
{
    let second = number(a, b' ', out, at)?;
    let third = number(b, b' ', out, second)?;
    number(c, b'\n', out, third)
}

// `load` and the number of the refusal.
pub(crate) fn load_line(n: u8, out: &mut [u8], at: usize) -> Option<usize>
    ensures { Written (take at out.old ++ load_line n) out.old out.new result }
{
    let next = fill(b"load ", out, at)?;
    number(n as u64, b'\n', out, next)
}

// `race`, the two threads, the cell.
pub(crate) fn race_line(i: usize, j: usize, cell: usize, out: &mut [u8], at: usize) -> Option<usize>
    ensures { Written (take at out.old ++ race_line i j cell) out.old out.new result }
{
    let next = fill(b"race ", out, at)?;
    three(i as u64, j as u64, cell as u64, out, next)
}
