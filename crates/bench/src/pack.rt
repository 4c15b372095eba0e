// Answers as one number: a part below the others, a refusal, and a length or a refusal.
ghost use Rattle.std.specs.Prelude.{◌≡◌, ◌<◌, ◌≤◌, ◌^◌};
ghost use Rattle.answers.specs.Numbers.{number, place};
ghost use Rattle.answers.specs.Said.{said};
ghost use Rattle.bench.specs.Judging.{packed, Fits};
ghost use Rattle.bench.specs.Packing.{Packs, below};

use answers::Refusal;

// `low` in bits 0 to 7, the rest above them.
pub(crate) fn below(low: u8, rest: u64) -> u64
    requires { rest < 2 ^ 56 }
    ensures { Packs low rest result }
{
    rest * 256 + u64::from(low)
}

// Above the number of a refusal stands its place.
fn refused(refusal: Refusal) -> u64
    requires { place refusal ≤ 4096 }
    ensures { result ≡ below (number refusal) (place refusal) }
{
    below(refusal.number(), refusal.place() as u64)
}

// Above the number of the answer: the length (done) or the place (refused).
pub(crate) fn pack(answer: Result<usize, Refusal>) -> u64
    requires { Fits (said answer) }
    ensures { result ≡ packed (said answer) }
{
    match answer {
        Ok(length) => below(0, length as u64),
        Err(refusal) => refused(refusal),
    }
}
