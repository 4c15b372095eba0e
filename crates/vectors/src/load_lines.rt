// The lines of the loads: `L image answer place` (raw) and `C image answer place -` (judged), where answer 0 is loaded.
use crate::buffers::{IMAGE, PATTERN, STATE, WORK, filled};
use crate::due;
use crate::fields::{field, numbers, rest};
use crate::rows::{Row, load_row};
use lines::digits::bytes;
use loads::entry::{judged_load, raw_load};

fn read_due(fields: &[u8]) -> Option<Row> {
    let [answer, place] = numbers::<2>(fields)?;
    (answer < 256).then_some(Row::One(answer, place))
}

// What a load may not touch: all of the buffer at a refusal, else what lies past the state.
fn kept(due: Row, state: &[u8]) -> &[u8] {
    match due {
        Row::One(0, _) => state.get(due::STATE_BYTES..).unwrap_or(state),
        _ => state,
    }
}

fn raw_on(image: &[u8], due: Row) -> bool {
    let mut state = filled::<STATE>(PATTERN);
    let row = load_row(raw_load(image, &mut state));
    due::load_as_due(row, due, kept(due, &state))
}

fn judged_on(image: &[u8], due: Row) -> bool {
    let mut state = filled::<STATE>(PATTERN);
    let mut work = filled::<WORK>(PATTERN);
    let row = load_row(judged_load(image, &mut state, &mut work));
    let cleared = due::cleared(&work, due::WORK_BYTES);
    cleared && due::load_as_due(row, due, kept(due, &state))
}

fn loaded<F: Fn(&[u8], Row) -> bool>(line: &[u8], load_on: F) -> Option<bool>
    requires { F.IsAlwaysCallable load_on }
{
    let fields = rest(line);
    let due = read_due(rest(fields))?;
    let mut image = filled::<IMAGE>(0);
    let n = bytes(field(fields), &mut image)?;
    Some(load_on(due::first(&image, n), due))
}

pub(crate) fn raw_loaded(line: &[u8]) -> Option<bool> {
    loaded(line, |image, due| raw_on(image, due))
}

pub(crate) fn judged_loaded(line: &[u8]) -> Option<bool> {
    loaded(line, |image, due| judged_on(image, due))
}
