// The lines of the two runs: `Q state schedule steps last state'` and `D state limit answer steps state'`.
use crate::calls::compared;
use crate::due;
use crate::fields::{field, numbers, past_four, rest};
use crate::rows::{Row, default_row, run_row};
use lines::digits::bytes;
use machine::default_run::default_run;
use machine::run::run;

// What the fields after the state say: how long the schedule is, whose bytes are put first into `schedule`, and the answer that is due.
fn read_schedule(fields: &[u8], schedule: &mut [u8]) -> Option<(usize, Row)> {
    let [steps, last] = numbers::<2>(rest(fields))?;
    let length = bytes(field(fields), schedule)?;
    Some((length, Row::One(last, steps)))
}

// How high the limit is, and the answer that is due.
fn read_limit(fields: &[u8]) -> Option<(u64, Row)> {
    let [limit, answer, steps] = numbers::<3>(fields)?;
    Some((limit as u64, Row::One(answer, steps)))
}

pub(crate) fn scheduled(line: &[u8]) -> Option<bool> {
    let fields = rest(line);
    let mut buffer = [0u8; 1000];
    let (n, due) = read_schedule(rest(fields), &mut buffer)?;
    let schedule = due::first(&buffer, n);
    compared(
        field(fields),
        past_four(fields),
        |state| run_row(run(state, schedule)),
        due,
    )
}

pub(crate) fn by_default(line: &[u8]) -> Option<bool> {
    let fields = rest(line);
    let (limit, due) = read_limit(rest(fields))?;
    compared(
        field(fields),
        past_four(fields),
        |state| default_row(default_run(state, limit)),
        due,
    )
}
