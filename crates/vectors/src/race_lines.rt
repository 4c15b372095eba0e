// The lines of the race finder: `R state answer i j cell`, or `R state answer -` where there is no pair.
use crate::buffers::{PATTERN, STATE, filled};
use crate::fields::{field, numbers, rest};
use crate::rows::{Row, race_row};
use crate::sparse::Lent;
use crate::{due, sparse};
use states::race;

// The answer that is due.
fn read_due(fields: &[u8]) -> Option<Row> {
    if rest(fields) == b"-".as_slice() {
        let [answer] = numbers::<1>(fields)?;
        return Some(Row::Alone(answer));
    }
    let [answer, first, second, cell] = numbers::<4>(fields)?;
    Some(Row::Three(answer, first, second, cell))
}

fn race_on(fields: &[u8], due: Row, lent: Lent) -> Option<bool> {
    let mut state = filled::<STATE>(PATTERN);
    let length = sparse::state(field(fields), &mut state)?;
    Some(race_row(race(due::first(&state, lent.of(length)))) == due)
}

pub(crate) fn raced(line: &[u8]) -> Option<bool> {
    let fields = rest(line);
    let due = read_due(rest(fields))?;
    Some(race_on(fields, due, Lent::State)? && race_on(fields, due, Lent::All)?)
}
