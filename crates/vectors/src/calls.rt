// A line's call of the machine: on the state that stands in its field, compared with the answer and the state that are due. None where a field
// is no state.
use crate::buffers::{PATTERN, STATE, filled};
use crate::rows::Row;
use crate::sparse::Lent;
use crate::{rows, sparse};

fn made_on<F: Fn(&mut [u8]) -> Row>(
    before: &[u8],
    after: &[u8],
    call: &F,
    due: Row,
    lent: Lent,
) -> Option<bool>
    requires { F.IsAlwaysCallable call.now }
{
    let mut state = filled::<STATE>(PATTERN);
    let mut expected = filled::<STATE>(PATTERN);
    let length = sparse::pair(before, after, &mut state, &mut expected)?;
    let n = lent.of(length).min(STATE);
    let row = call(&mut state[..n]);
    Some(rows::as_due(row, due, &state, &expected))
}

// The fields of the state before the call and after it, and the call, on as much as the state is long and on more.
pub(crate) fn compared<F: Fn(&mut [u8]) -> Row>(
    before: &[u8],
    after: &[u8],
    call: F,
    due: Row,
) -> Option<bool>
    requires { F.IsAlwaysCallable call }
{
    let first = made_on(before, after, &call, due, Lent::State)?;
    Some(first && made_on(before, after, &call, due, Lent::All)?)
}
