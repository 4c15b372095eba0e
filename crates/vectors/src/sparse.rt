// A state as a field: `length:offset=hex+offset=hex`, every other byte zero.
use crate::buffers::STATE;
use crate::due::STATE_BYTES;
use lines::cut::{after, before, parted};
use lines::digits::{decimal, hex};
use zeros::clear;

const PLUS: u8 = b'+';

const COLON: u8 = b':';

const EQUALS: u8 = b'=';

fn put_piece(piece: &[u8], out: &mut [u8]) -> Option<usize> {
    let at = decimal(before(piece, EQUALS))?;
    hex(after(piece, EQUALS), out.get_mut(at..)?)
}

fn put_pieces(pieces: &[u8], out: &mut [u8]) -> Option<()> {
    let mut left = pieces;
    while !left.is_empty() {
        let (piece, behind) = parted(left, PLUS);
        put_piece(piece, out)?;
        left = behind;
    }
    Some(())
}

// Puts the state's bytes first into out, and answers how long it is. None where out is too short for it.
pub(crate) fn state(field: &[u8], out: &mut [u8]) -> Option<usize> {
    let length = decimal(before(field, COLON))?;
    let state = out.get_mut(..length)?;
    clear(state);
    put_pieces(after(field, COLON), state)?;
    Some(length)
}

// The two states of a line, before a call and due after it. None where they are not equally long.
pub(crate) fn pair(first: &[u8], last: &[u8], out: &mut [u8], due: &mut [u8]) -> Option<usize> {
    let length = state(first, out)?;
    let after = state(last, due)?;
    (after == length).then_some(length)
}

// How much of a buffer is lent: as much as the state is long, or, where that is a whole state's length, all of it.
#[derive(Clone, Copy, Debug, PartialEq, Eq)]
pub(crate) enum Lent {
    State,
    All,
}

impl Lent {
    pub(crate) fn of(self, length: usize) -> usize {
        if self == Lent::All && STATE_BYTES <= length {
            STATE
        } else {
            length
        }
    }
}
