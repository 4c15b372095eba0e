// The kinds of step, each on the bytes s of the part that makes it, or on it as two parts of its own: the first stands behind the code. Of the
// three parts of an If the second and the third stand from g and h on. What the part becomes is written to `out`, as far as there is room.
ghost use Rattle.std.specs.Prelude.{◌≡◌, ◌<◌, ◌≤◌, length};
ghost use Rattle.paper.specs.Base.{word32};
ghost use Rattle.plans.specs.Card.{card_of};
ghost use Rattle.plans.specs.ByteAt.{cells_from};
ghost use Rattle.machine.specs.Cuts.{Cut, Cut3};
ghost use Rattle.machine.specs.Kinds.{Applied, LetBound, LockMade, CellMade, CellRead, CellWritten, Forked};
ghost use Rattle.machine.specs.Kinds.{LockTaken, LockReleased, WentOn, Added, Branched};

use crate::act::{Also, Goes, goes_on};
use crate::answer::{Kind, NoStep};
use crate::parts::Parts;
use places::{byte_at, two_at};
use plans::card::Card;
use slots::codes::{CELL, FUNCTION, LOCK, NUMBER, OPEN, UNIT};
use slots::put::put;
use writing::{fill, fill_both};

pub(crate) fn apply(p: Parts, out: &mut [u8], stack: &mut [u8; 4096]) -> Result<Goes, NoStep>
    ensures { Applied p.entry.bytes.now p.entry.second (length out.old) out.new result }
{
    if p.bytes[1] != FUNCTION {
        return Err(NoStep::IsStuck);
    }
    let n = put(&p.bytes[2..p.second], &p.bytes[p.second..], out, 0, stack);
    goes_on(Kind::Apply, 0, n, Also::Nothing)
}

pub(crate) fn bind(p: Parts, out: &mut [u8], stack: &mut [u8; 4096]) -> Result<Goes, NoStep>
    ensures { LetBound p.entry.bytes.now p.entry.second (length out.old) out.new result }
{
    let n = put(&p.bytes[p.second..], &p.bytes[1..p.second], out, 0, stack);
    goes_on(Kind::Let, 0, n, Also::Nothing)
}

// Then: the second part is left.
pub(crate) fn went_on(p: Parts, out: &mut [u8]) -> Result<Goes, NoStep>
    ensures { WentOn p.entry.bytes.now p.entry.second (length out.old) out.new result }
{
    let n = fill(&p.bytes[p.second..], out, 0);
    goes_on(Kind::Then, 0, n, Also::Nothing)
}

pub(crate) fn make_lock(
    s: &[u8],
    count: u8,
    room: usize,
    out: &mut [u8],
    stack: &mut [u8; 4096],
) -> Result<Goes, NoStep>
    requires cut { Cut s.now 1 (length s.now) }
    requires short { length s.now ≤ 2048 }
    ensures { LockMade s.now count room (length out.old) out.new result }
{
    let l = usize::from(count);
    if room <= l {
        return Err(NoStep::TooMany);
    }
    let n = put(&s[1..], &[LOCK, count], out, 0, stack);
    goes_on(Kind::LockMade, l, n, Also::NewLock)
}

pub(crate) fn make_cell(s: &[u8], count: u8, card: Card, out: &mut [u8]) -> Result<Goes, NoStep>
    ensures { CellMade s.now count card.cells card.cell_bytes (length out.old) out.new result }
{
    let j = usize::from(count);
    if card.cells <= j {
        return Err(NoStep::TooMany);
    }
    if card.cell_bytes + 1 < s.len() {
        return Err(NoStep::TooLong);
    }
    let n = fill(&[CELL, count], out, 0);
    goes_on(Kind::CellMade, j, n, Also::NewCell)
}

pub(crate) fn read(s: &[u8], state: &[u8], card: Card, out: &mut [u8]) -> Result<Goes, NoStep>
    requires { Cut s.now 1 (length s.now) }
    ensures { CellRead s.now state.now (cells_from (card_of card)) card.cell_bytes (length out.old) out.new result }
{
    if s[1] != CELL {
        return Err(NoStep::IsStuck);
    }
    let j = byte_at(s, 2);
    let slot = card.cell(j);
    let n = two_at(state, slot.place);
    let end = slot.base + n;
    if slot.size < n || state.len() < end {
        return Err(NoStep::IsStuck);
    }
    let m = fill(&state[slot.base..end], out, 0);
    goes_on(Kind::Read, usize::from(j), m, Also::Nothing)
}

pub(crate) fn write(p: Parts, size: usize, out: &mut [u8]) -> Result<Goes, NoStep>
    ensures { CellWritten p.entry.bytes.now p.entry.second size (length out.old) out.new result }
{
    if p.bytes[1] != CELL {
        return Err(NoStep::IsStuck);
    }
    let j = byte_at(p.bytes, 2);
    if size < p.bytes.len() - p.second {
        return Err(NoStep::TooLong);
    }
    let n = fill(&[UNIT], out, 0);
    goes_on(Kind::Write, usize::from(j), n, Also::SetCell(j, p.second))
}

pub(crate) fn fork(s: &[u8], count: u8, room: usize, out: &mut [u8]) -> Result<Goes, NoStep>
    ensures { Forked s.now count room (length out.old) out.new result }
{
    let i = usize::from(count);
    if room <= i {
        return Err(NoStep::TooMany);
    }
    let n = fill(&[UNIT], out, 0);
    goes_on(Kind::Fork, i, n, Also::NewThread(count))
}

// The open section takes the place of the code and the lock.
pub(crate) fn take(p: Parts, state: &[u8], out: &mut [u8]) -> Result<Goes, NoStep>
    ensures { LockTaken p.entry.bytes.now p.entry.second state.now (length out.old) out.new result }
{
    if p.bytes[1] != LOCK {
        return Err(NoStep::IsStuck);
    }
    let l = byte_at(p.bytes, 2);
    let number = usize::from(l);
    if byte_at(state, 6 + number) != 0 {
        return Err(NoStep::WaitsFor(number));
    }
    let n = fill_both(&[OPEN, l], &p.bytes[p.second..], out, 0);
    goes_on(Kind::Take, number, n, Also::Taken(l))
}

// The lock stands behind the code, and the part behind the lock.
pub(crate) fn release(s: &[u8], out: &mut [u8]) -> Result<Goes, NoStep>
    requires { Cut s.now 2 (length s.now) }
    ensures { LockReleased s.now (length out.old) out.new result }
{
    let l = byte_at(s, 1);
    let n = fill(&s[2..], out, 0);
    goes_on(Kind::Release, usize::from(l), n, Also::Released(l))
}

fn word_at(s: &[u8], k: usize) -> u32
    requires { k ≤ length s.now }
    ensures { result ≡ word32 s.now k }
{
    u32::from_be_bytes([
        byte_at(s, k),
        byte_at(s, k + 1),
        byte_at(s, k + 2),
        byte_at(s, k + 3),
    ])
}

pub(crate) fn add(p: Parts, out: &mut [u8]) -> Result<Goes, NoStep>
    ensures { Added p.entry.bytes.now p.entry.second (length out.old) out.new result }
{
    let s = p.bytes;
    if s[1] != NUMBER {
        return Err(NoStep::IsStuck);
    }
    if s[p.second] != NUMBER {
        return Err(NoStep::IsStuck);
    }
    let [a, b, c, d] = word_at(s, 2)
        .wrapping_add(word_at(s, p.second + 1))
        .to_be_bytes();
    let m = fill(&[NUMBER, a, b, c, d], out, 0);
    goes_on(Kind::Add, 0, m, Also::Nothing)
}

// If: the third part for 0, else the second.
pub(crate) fn branch(s: &[u8], g: usize, h: usize, out: &mut [u8]) -> Result<Goes, NoStep>
    requires { Cut3 s.now 1 g h (length s.now) }
    ensures { Branched s.now g h (length out.old) out.new result }
{
    if s[1] != NUMBER {
        return Err(NoStep::IsStuck);
    }
    if word_at(s, 2) == 0 {
        let n = fill(&s[h..], out, 0);
        return goes_on(Kind::If, 0, n, Also::Nothing);
    }
    let n = fill(&s[g..h], out, 0);
    goes_on(Kind::If, 0, n, Also::Nothing)
}
