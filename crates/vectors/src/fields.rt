// The fields of a line, one after the other.
use lines::cut::{BLANK, after, before, parted};
use lines::digits::decimal;

pub(crate) fn field(fields: &[u8]) -> &[u8] {
    before(fields, BLANK)
}

pub(crate) fn rest(fields: &[u8]) -> &[u8] {
    after(fields, BLANK)
}

pub(crate) fn past_two(fields: &[u8]) -> &[u8] {
    rest(rest(fields))
}

pub(crate) fn past_four(fields: &[u8]) -> &[u8] {
    past_two(past_two(fields))
}

// The numbers of the first N fields, if all are numbers.
pub(crate) fn numbers<const N: usize>(fields: &[u8]) -> Option<[usize; N]> {
    let mut out = [0; N];
    let mut left = fields;
    for n in &mut out {
        let (digits, behind) = parted(left, BLANK);
        *n = decimal(digits)?;
        left = behind;
    }
    Some(out)
}
