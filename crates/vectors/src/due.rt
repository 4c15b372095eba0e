// The comparisons. Each answers true exactly where everything is as due, so that a vector can fail.
ghost use Rattle.vectors.specs.Due.{Exactly, Filled, Cleared, AsDue, LoadAsDue, Untouched};

use crate::buffers::PATTERN;
use crate::rows::Row;

pub(crate) const WORK_BYTES: usize = 40960;

pub(crate) const STATE_BYTES: usize = 49408;

// The image of a line, in the buffer that it was read into.
pub(crate) fn first(s: &[u8], n: usize) -> &[u8] {
    s.get(..n).unwrap_or(s)
}

// All are looked at, so that many can be at once: with `all`, which looks at one by one, a line of the judge took twice the time.
#[tactic(auto, using(crate::specs::DueLaws::filled_ways))]
pub(crate) fn filled(s: &[u8], b: u8) -> bool
    ensures { Exactly result (Filled b s.now) }
{
    let mut same = true;
    for x in s {
        same &= *x == b;
    }
    same
}

// The first bytes zero, the rest as it was filled: the work buffer after every answer but 1.
pub(crate) fn cleared(buffer: &[u8], size: usize) -> bool
    ensures { Exactly result (Cleared size buffer.now) }
{
    if buffer.len() < size {
        return false;
    }
    filled(&buffer[..size], 0) && filled(&buffer[size..], PATTERN)
}

pub(crate) fn as_due(row: Row, due: Row, types: &[u8], expected: &[u8], work: &[u8]) -> bool
    ensures { Exactly result (AsDue row due types.now expected.now work.now) }
{
    row == due && types == expected && cleared(work, WORK_BYTES)
}

// Answer 1, and both buffers as they were filled.
pub(crate) fn untouched(row: Row, types: &[u8], work: &[u8]) -> bool
    ensures { Exactly result (Untouched row types.now work.now) }
{
    row == Row::One(1, 0) && filled(types, PATTERN) && filled(work, PATTERN)
}

// A load's answer, and the bytes that it may not touch.
pub(crate) fn load_as_due(row: Row, due: Row, kept: &[u8]) -> bool
    ensures { Exactly result (LoadAsDue row due kept.now) }
{
    row == due && filled(kept, PATTERN)
}
