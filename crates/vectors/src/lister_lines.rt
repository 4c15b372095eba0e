// The lines of the lister: `N image at code CODE PLACE NEXT`, `N image at end` and `N image at refuse NO PLACE`.
use crate::buffers::{IMAGE, filled};
use crate::due;
use crate::fields::{field, numbers, rest};
use crate::rows::{Row, item_row};
use lines::digits::bytes;
use lister::next;

fn read_item(fields: &[u8]) -> Option<Row> {
    match field(fields) {
        b"code" => {
            let [code, place, next] = numbers::<3>(rest(fields))?;
            Some(Row::Three(0, code, place, next))
        }
        b"refuse" => {
            let [number, place] = numbers::<2>(rest(fields))?;
            Some(Row::One(number, place))
        }
        b"end" => Some(Row::Alone(0)),
        _ => None,
    }
}

// What the fields after the image say: the place, and the answer that is due.
fn read_due(fields: &[u8]) -> Option<(usize, Row)> {
    let [at] = numbers::<1>(fields)?;
    Some((at, read_item(rest(fields))?))
}

pub(crate) fn listed(line: &[u8]) -> Option<bool> {
    let fields = rest(line);
    let (at, due) = read_due(rest(fields))?;
    let mut image = filled::<IMAGE>(0);
    let n = bytes(field(fields), &mut image)?;
    Some(item_row(next(due::first(&image, n), at)) == due)
}
