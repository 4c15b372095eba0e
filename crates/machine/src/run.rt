// "A run takes a schedule, one thread number a byte, makes every call, and reports how many stepped and the last answer (0 for an empty
// schedule)." Calls on a short buffer or on bytes that are no state all answer the same and change nothing, so none of them is made.
ghost use Rattle.paper.specs.States.{sixteen};
ghost use Rattle.plans.specs.Card.{card_of};
ghost use Rattle.machine.specs.Answering.{Held};
ghost use Rattle.machine.specs.RunCalls.{Runs};

use crate::answer::NoStep;
use crate::numbers::answer_of;
use crate::scratch::Scratch;
use crate::step::step_held;
use plans::card::{Card, SIXTEEN};
use states::check_state;

// How many calls stepped, and document 01's number of the last one's answer: an empty schedule has no last answer to be told by an enum, and
// the number for it is 0.
#[derive(Clone, Copy, Debug, PartialEq, Eq)]
pub struct Ran {
    pub steps: usize,
    pub last: u8,
}

fn run_held(state: &mut [u8], schedule: &[u8], card: Card, scratch: &mut Scratch) -> Ran
    requires { Held (card_of card) state.old }
    ensures { Runs (card_of card) state.old schedule.now state.new result }
{
    let mut steps: usize = 0;
    let mut last = 0;
    for thread in schedule {
        last = answer_of(step_held(state, u64::from(*thread), card, scratch));
        if last == 0 {
            steps += 1;
        }
    }
    Ran { steps, last }
}

#[tactic(auto, using(laws::specs::Cards::sixteen_fits), unfolding(paper::specs::States::sixteen))]
pub fn run(state: &mut [u8], schedule: &[u8]) -> Ran
    ensures { Runs sixteen state.old schedule.now state.new result }
{
    if schedule.is_empty() {
        return Ran { steps: 0, last: 0 };
    }
    if let Err(unfit) = check_state(state) {
        return Ran {
            steps: 0,
            last: answer_of(Err(NoStep::from(unfit))),
        };
    }
    run_held(state, schedule, SIXTEEN, &mut Scratch::new())
}
