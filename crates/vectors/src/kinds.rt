// The kinds of lines, each by its letter.
use lines::cut::{BLANK, before};
use std::fmt;

// In the order in which they are counted.
#[derive(Clone, Copy, Debug, PartialEq, Eq)]
pub(crate) enum Kind {
    Judge,
    RawLoad,
    JudgedLoad,
    Lister,
    Trial,
    Step,
    Race,
    Run,
    DefaultRun,
}

pub(crate) const KINDS: [Kind; 9] = [
    Kind::Judge,
    Kind::RawLoad,
    Kind::JudgedLoad,
    Kind::Lister,
    Kind::Trial,
    Kind::Step,
    Kind::Race,
    Kind::Run,
    Kind::DefaultRun,
];

// A letter that no kind has.
#[derive(Clone, Copy, Debug, PartialEq, Eq)]
pub(crate) struct NoKind;

impl TryFrom<u8> for Kind {
    type Error = NoKind;

    fn try_from(letter: u8) -> Result<Kind, NoKind> {
        match letter {
            b'J' => Ok(Kind::Judge),
            b'L' => Ok(Kind::RawLoad),
            b'C' => Ok(Kind::JudgedLoad),
            b'N' => Ok(Kind::Lister),
            b'P' => Ok(Kind::Trial),
            b'T' => Ok(Kind::Step),
            b'R' => Ok(Kind::Race),
            b'Q' => Ok(Kind::Run),
            b'D' => Ok(Kind::DefaultRun),
            _ => Err(NoKind),
        }
    }
}

impl fmt::Display for Kind {
    fn fmt<W: fmt::Write>(&self, f: &mut fmt::Formatter<W>) -> fmt::Result {
        f.write_str(match self {
            Kind::Judge => "J",
            Kind::RawLoad => "L",
            Kind::JudgedLoad => "C",
            Kind::Lister => "N",
            Kind::Trial => "P",
            Kind::Step => "T",
            Kind::Race => "R",
            Kind::Run => "Q",
            Kind::DefaultRun => "D",
        })
    }
}

// The kind of a line: its first field is the letter.
pub(crate) fn kind_of(line: &[u8]) -> Result<Kind, NoKind> {
    match before(line, BLANK) {
        [letter] => Kind::try_from(*letter),
        _ => Err(NoKind),
    }
}
