// The step.
ghost use Rattle.std.specs.Prelude.{◌≡◌};
ghost use Rattle.machine.specs.Answering.{case_of};
ghost use Rattle.paper.specs.Cases.{told};
ghost use Rattle.laws.specs.Numbers.{Small};
ghost use Rattle.bench.specs.Stepping.{packed, StepsC};

use crate::pack::below;
use machine::answer::{Made, NoStep};
use machine::entry::step;
use machine::numbers::answer_of;

// Above the number of the answer: the kind in bits 8 to 15, and above it the number.
fn pack(answer: Result<Made, NoStep>) -> u64
    requires { Small (told (case_of answer)) }
    ensures { result ≡ packed (told (case_of answer)) }
{
    match answer {
        Ok(made) => below(0, below(made.kind.number(), made.number as u64)),
        Err(why) => match why {
            NoStep::WaitsFor(lock) => below(21, below(0, lock as u64)),
            _ => u64::from(answer_of(answer)),
        },
    }
}

pub fn laverockin_step(state: &mut [u8], thread: u64) -> u64
    ensures { StepsC state.old thread result state.new }
{
    pack(step(state, thread))
}
