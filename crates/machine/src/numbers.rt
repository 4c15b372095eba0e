// Document 01's number of each answer of a step.
ghost use Rattle.machine.specs.Numbers.{Numbers};

use crate::answer::{Made, NoStep};

#[tactic(auto, using(crate::specs::Numbers::numbers_case), unfolding(paper::specs::Cases::told))]
pub fn answer_of(answer: Result<Made, NoStep>) -> u8
    ensures { Numbers answer result }
{
    match answer {
        Ok(_) => 0,
        Err(NoStep::BufferShort) => 1,
        Err(NoStep::NoState) => 18,
        Err(NoStep::NoSuchThread) => 19,
        Err(NoStep::IsFinished) => 20,
        Err(NoStep::WaitsFor(_)) => 21,
        Err(NoStep::IsStuck) => 22,
        Err(NoStep::TooMany) => 23,
        Err(NoStep::TooLong) => 24,
    }
}
