// The lines of the step: `T state i answer kind number state'`.
use crate::calls::compared;
use crate::fields::{field, numbers, past_four, rest};
use crate::rows::{Row, step_row};
use machine::entry::step;

// What the fields after the state say: the thread's number, and the answer that is due.
fn read_due(fields: &[u8]) -> Option<(u64, Row)> {
    let [thread, answer, kind, number] = numbers::<4>(fields)?;
    Some((thread as u64, Row::Two(answer, kind, number)))
}

pub(crate) fn stepped(line: &[u8]) -> Option<bool> {
    let fields = rest(line);
    let (thread, due) = read_due(rest(fields))?;
    let last = rest(past_four(fields));
    compared(
        field(fields),
        last,
        |state| step_row(step(state, thread)),
        due,
    )
}
