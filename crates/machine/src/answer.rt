// What a step answers: the kind of step that was made and the number that goes with it, or why none was made (document 01, "The running state").
ghost use Rattle.std.specs.Prelude.{◌≡◌};
ghost use Rattle.machine.specs.Answer.{kind_number, unfit_for};

use states::Unfit;

#[derive(Clone, Copy, Debug, PartialEq, Eq)]
pub enum Kind {
    Apply = 1,
    CellMade,
    Read,
    Write,
    Fork,
    LockMade,
    Take,
    Release,
    Let,
    Then,
    Add,
    If,
}

impl Kind {
    // Document 01's number.
    pub fn number(self) -> u8
        ensures { result ≡ kind_number self }
    {
        self as u8
    }
}

#[derive(Clone, Copy, Debug, PartialEq, Eq)]
pub struct Made {
    pub kind: Kind,
    pub number: usize,
}

#[derive(Clone, Copy, Debug, PartialEq, Eq)]
pub enum NoStep {
    BufferShort,
    NoState,
    NoSuchThread,
    IsFinished,
    WaitsFor(usize),
    IsStuck,
    TooMany,
    TooLong,
}

impl From<Unfit> for NoStep {
    ghost from_gives = { λ u e. e ≡ unfit_for u };

    fn from(unfit: Unfit) -> NoStep {
        match unfit {
            Unfit::BufferShort => NoStep::BufferShort,
            Unfit::NoState => NoStep::NoState,
        }
    }
}
