// One step of a thread, on a buffer that holds a state. Only the part that makes the step is copied aside, so that what is put into it or goes
// elsewhere is read from the copy; what it becomes is exchanged for it where it stands, and the rest of the thread is not looked at again.
ghost use Rattle.plans.specs.Card.{card_of};
ghost use Rattle.machine.specs.DuePart.{Whole, Parted};
ghost use Rattle.machine.specs.Answering.{Running, Held, Answers};

use crate::answer::{Made, NoStep};
use crate::change::change;
use crate::dispatch::act;
use crate::scratch::Scratch;
use places::{byte_at, two_at};
use plans::card::{Card, Slot};
use plans::store::exchange;
use slots::codes::value;
use slots::walk::skip;
use slots::way::place;
use writing::fill;

// The part of a thread of `used` bytes that makes its next step: from and to, and where its own second part begins in it, if that is known.
#[derive(Clone, Copy, Debug, PartialEq, Eq)]
struct Due {
    used: usize,
    from: usize,
    to: usize,
    second: Option<usize>,
}

fn find_due(thread: &[u8]) -> Due
    requires { Whole thread.now }
    ensures { Parted thread.now result }
{
    let used = thread.len();
    let reached = place(thread);
    let from = reached.at;
    let Some(e) = reached.second else {
        return Due {
            used,
            from,
            to: skip(thread, from).unwrap(),
            second: None,
        };
    };
    Due {
        used,
        from,
        to: skip(thread, e).unwrap(),
        second: Some(e - from),
    }
}

// The step of thread i, by the part that is due, whose bytes are s.
fn run_part(
    state: &mut [u8],
    i: u8,
    card: Card,
    due: Due,
    s: &[u8],
    out: &mut [u8],
    stack: &mut [u8; 4096],
) -> Result<Made, NoStep>
    requires { Running (card_of card) state.old i due s.now out.old }
    ensures { Answers (card_of card) state.old i state.new result }
{
    let goes = act(s, due.second, state, card, out, stack)?;
    if card.thread_bytes - (due.used - s.len()) < goes.size {
        return Err(NoStep::TooLong);
    }
    change(state, card, s, goes.also);
    let used = Slot {
        size: due.used,
        ..card.thread(i)
    };
    exchange(state, used, due.from, due.to, &out[..goes.size]);
    Ok(goes.made)
}

// A thread number is 64 bits wide until it is known to be below the count. That the buffer holds a state is asked here and by the runs, and is no
// fact of a type: between the stores of a step it holds none, and a type over a lent buffer has to keep its fact at each of them.
pub(crate) fn step_held(
    state: &mut [u8],
    i: u64,
    card: Card,
    scratch: &mut Scratch,
) -> Result<Made, NoStep>
    requires { Held (card_of card) state.old }
    ensures { Answers (card_of card) state.old i state.new result }
{
    let count = byte_at(state, 3);
    if u64::from(count) <= i {
        return Err(NoStep::NoSuchThread);
    }
    let i = i as u8;
    let slot = card.thread(i);
    let n = two_at(state, slot.place);
    let end = slot.base + n;
    if value(state[slot.base]) {
        return Err(NoStep::IsFinished);
    }
    let due = find_due(&state[slot.base..end]);
    let from = slot.base + due.from;
    let to = slot.base + due.to;
    let Scratch { old, out, stack } = scratch;
    let m = fill(&state[from..to], old, 0).unwrap(); // no thread is longer than `old`
    run_part(state, i, card, due, &old[..m], out, stack)
}
