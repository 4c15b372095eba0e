// Why an image is refused, and where: the error of every reader, of the judge and of the loads.
#![tactic(auto)]

ghost use Rattle.std.specs.Prelude.{◌≡◌};
ghost use Rattle.answers.specs.Numbers.{number, place};

// The rows of document 01's table 1 to 17, each with the place that it leaves open.
#[derive(Clone, Copy, Debug, PartialEq, Eq)]
pub enum Refusal {
    ShortBuffer,
    UntrueLength,
    OtherVersion,
    NoSuchCode(usize),
    CutImage(usize),
    LeftOver(usize),
    OverLimit(usize),
    UnboundVariable(usize),
    UnboundName(usize),
    OwnTypeLong(usize),
    OtherForm(usize),
    NotSubtype(usize),
    UndeclaredNeed(usize),
    ForkNeeds(usize),
    LockInType(usize),
    LockInNeed(usize),
    ErasedLong,
}

impl Refusal {
    // Document 01's number.
    pub fn number(self) -> u8
        ensures { result ≡ number self }
    {
        match self {
            Refusal::ShortBuffer => 1,
            Refusal::UntrueLength => 2,
            Refusal::OtherVersion => 3,
            Refusal::NoSuchCode(_) => 4,
            Refusal::CutImage(_) => 5,
            Refusal::LeftOver(_) => 6,
            Refusal::OverLimit(_) => 7,
            Refusal::UnboundVariable(_) => 8,
            Refusal::UnboundName(_) => 9,
            Refusal::OwnTypeLong(_) => 10,
            Refusal::OtherForm(_) => 11,
            Refusal::NotSubtype(_) => 12,
            Refusal::UndeclaredNeed(_) => 13,
            Refusal::ForkNeeds(_) => 14,
            Refusal::LockInType(_) => 15,
            Refusal::LockInNeed(_) => 16,
            Refusal::ErasedLong => 17,
        }
    }

    // Document 01's place.
    pub fn place(self) -> usize
        ensures { result ≡ place self }
    {
        match self {
            Refusal::ShortBuffer | Refusal::UntrueLength | Refusal::ErasedLong => 0,
            Refusal::OtherVersion => 2,
            Refusal::NoSuchCode(p)
            | Refusal::CutImage(p)
            | Refusal::LeftOver(p)
            | Refusal::OverLimit(p)
            | Refusal::UnboundVariable(p)
            | Refusal::UnboundName(p)
            | Refusal::OwnTypeLong(p)
            | Refusal::OtherForm(p)
            | Refusal::NotSubtype(p)
            | Refusal::UndeclaredNeed(p)
            | Refusal::ForkNeeds(p)
            | Refusal::LockInType(p)
            | Refusal::LockInNeed(p) => p,
        }
    }
}
