// "The default run (answers 1 and 18 first) steps the lowest-numbered thread that can, until none can or a given limit is reached, and reports
// the steps (0 if refused)."
ghost use Rattle.std.specs.Prelude.{Ok};
ghost use Rattle.paper.specs.States.{sixteen};
ghost use Rattle.plans.specs.Card.{card_of};
ghost use Rattle.machine.specs.Answering.{Held};
ghost use Rattle.machine.specs.Lowest.{StepsLowest};
ghost use Rattle.machine.specs.DefaultCalls.{DefaultRuns};

use crate::scratch::Scratch;
use crate::step::step_held;
use places::byte_at;
use plans::card::{Card, SIXTEEN};
use states::{Unfit, check_state};

// The step of the lowest-numbered thread that can: whether there is one. A thread is asked by the call itself, which changes nothing where it
// makes no step.
fn step_lowest(state: &mut [u8], card: Card, scratch: &mut Scratch) -> bool
    requires { Held (card_of card) state.old }
    ensures { StepsLowest (card_of card) state.old state.new result }
{
    for i in 0..byte_at(state, 3) {
        if step_held(state, u64::from(i), card, scratch).is_ok() {
            return true;
        }
    }
    false
}

fn default_held(state: &mut [u8], limit: u64, card: Card, scratch: &mut Scratch) -> u64
    requires { Held (card_of card) state.old }
    ensures { DefaultRuns (card_of card) state.old limit state.new (Ok result) }
{
    for steps in 0..limit {
        if !step_lowest(state, card, scratch) {
            return steps;
        }
    }
    limit
}

#[tactic(auto, using(laws::specs::Cards::sixteen_fits), unfolding(paper::specs::States::sixteen))]
pub fn default_run(state: &mut [u8], limit: u64) -> Result<u64, Unfit>
    ensures { DefaultRuns sixteen state.old limit state.new result }
{
    check_state(state)?;
    Ok(default_held(state, limit, SIXTEEN, &mut Scratch::new()))
}
