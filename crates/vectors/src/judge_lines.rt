// The lines of the judge: `J image answer place - type`, where answer 0 is accepted.
use crate::buffers::{IMAGE, PATTERN, WORK, filled};
use crate::due;
use crate::fields::{field, numbers, past_two, rest};
use crate::rows::{Row, judge_row};
use judging::entry::judge;
use lines::digits::bytes;

// With a type of this size: accepted is at place 0, a refusal gives no type.
fn sized(answer: usize, place: usize, size: usize) -> Option<Row> {
    match (answer, place, size) {
        (0, 0, _) => Some(Row::One(0, size)),
        (1..=255, _, 0) => Some(Row::One(answer, place)),
        _ => None,
    }
}

// The answer that is due. Puts the type's bytes first into types.
fn read_due(fields: &[u8], types: &mut [u8]) -> Option<Row> {
    let last = past_two(fields);
    if field(last) != b"-".as_slice() {
        return None;
    }
    let size = bytes(rest(last), types)?;
    let [answer, place] = numbers::<2>(fields)?;
    sized(answer, place, size)
}

// Lends more than the judge asks for, so that what it may not touch is seen.
fn judged_on(image: &[u8], due: Row, due_types: &[u8]) -> bool {
    let mut types = [PATTERN; 300];
    let mut work = filled::<WORK>(PATTERN);
    let row = judge_row(judge(image, &mut types, &mut work));
    due::as_due(row, due, &types, due_types, &work)
}

pub(crate) fn judged(line: &[u8]) -> Option<bool> {
    let fields = rest(line);
    let mut types = [PATTERN; 300];
    let due = read_due(rest(fields), &mut types)?;
    let mut image = filled::<IMAGE>(0);
    let n = bytes(field(fields), &mut image)?;
    Some(judged_on(due::first(&image, n), due, &types))
}

// Answer 1 of the judge, on the image of a line.
fn on_short(line: &[u8], types: &mut [u8], work: &mut [u8]) -> Option<bool> {
    let mut image = filled::<IMAGE>(0);
    let n = bytes(field(rest(line)), &mut image)?;
    let row = judge_row(judge(due::first(&image, n), types, work));
    Some(due::untouched(row, types, work))
}

pub(crate) fn with_short_types(line: &[u8]) -> Option<bool> {
    let mut types = [PATTERN; 255];
    let mut work = filled::<WORK>(PATTERN);
    on_short(line, &mut types, &mut work)
}

pub(crate) fn with_short_work(line: &[u8]) -> Option<bool> {
    let mut types = [PATTERN; 300];
    let mut work = [PATTERN; 40959];
    on_short(line, &mut types, &mut work)
}
