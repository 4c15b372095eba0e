// The lines of the trial's text: `P input output`.
use crate::buffers::{IMAGE, PATTERN, STATE, TEXT, WORK, filled};
use crate::fields::{field, rest};
use crate::rows::{Row, text_row};
use crate::{due, rows};
use lines::digits::bytes;
use trial_texts::trial::trial_text;

// A text of this length stands first in expected. The bytes of the state and of the work are zero afterwards.
fn tried_on(input: &[u8], length: usize, expected: &[u8]) -> bool {
    let mut state = filled::<STATE>(PATTERN);
    let mut work = filled::<WORK>(PATTERN);
    let mut out = filled::<TEXT>(PATTERN);
    let row = text_row(trial_text(input, &mut state, &mut work, &mut out));
    let cleared = due::cleared(&state, due::STATE_BYTES) && due::cleared(&work, due::WORK_BYTES);
    cleared && rows::as_due(row, Row::One(0, length), &out, expected)
}

pub(crate) fn tried(line: &[u8]) -> Option<bool> {
    let fields = rest(line);
    let mut expected = filled::<TEXT>(PATTERN);
    let length = bytes(rest(fields), &mut expected)?;
    let mut input = filled::<IMAGE>(0);
    let n = bytes(field(fields), &mut input)?;
    Some(tried_on(due::first(&input, n), length, &expected))
}
