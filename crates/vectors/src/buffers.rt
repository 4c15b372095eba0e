// The buffers, each longer than what is asked for. The contract gives the length, which lending an array needs.
ghost use Rattle.std.specs.Prelude.{◌≡◌, length};

// What every lent buffer is filled with before a call.
pub(crate) const PATTERN: u8 = 165;

pub(crate) const STATE: usize = 49500;

pub(crate) const WORK: usize = 41000;

pub(crate) const IMAGE: usize = 5000;

pub(crate) const TEXT: usize = 75000;

// Of the program's own input.
pub(crate) const INPUT: usize = 1600000;

pub(crate) fn filled<const N: usize>(b: u8) -> [u8; N]
    ensures { N ≡ length result }
{
    [b; N]
}
