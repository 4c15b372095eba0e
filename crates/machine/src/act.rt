// What a step is, before any of it is done.
ghost use Rattle.std.specs.Prelude.{◌≡◌};
ghost use Rattle.machine.specs.Means.{going};

use crate::answer::{Kind, Made, NoStep};

// What changes beside the thread. A new cell's value and a new thread are the bytes behind the code of the part that makes the step; the value
// that a cell is set to is said by the place where it begins in that part.
#[derive(Clone, Copy, Debug, PartialEq, Eq)]
pub(crate) enum Also {
    Nothing,
    NewCell,
    SetCell(u8, usize),
    NewLock,
    Taken(u8),
    Released(u8),
    NewThread(u8),
}

// What the part at the place of evaluation does: what the step answers, how many bytes the part becomes, and what else changes.
#[derive(Clone, Copy, Debug, PartialEq, Eq)]
pub(crate) struct Goes {
    pub made: Made,
    pub size: usize,
    pub also: Also,
}

// The answer of a kind of step that is made, where there is room for what the part becomes. Whoever calls has refused all else before.
#[tactic(auto, unfolding(crate::specs::Means::going))]
pub(crate) fn goes_on(
    kind: Kind,
    number: usize,
    size: Option<usize>,
    also: Also,
) -> Result<Goes, NoStep>
    ensures { result ≡ going kind number size also }
{
    Ok(Goes {
        made: Made { kind, number },
        size: size.ok_or(NoStep::TooLong)?,
        also,
    })
}
