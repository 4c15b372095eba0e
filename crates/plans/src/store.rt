// Slots of a lent buffer and their lengths. The slots are the caller's, so that every card is served. Each function is total: what would
// reach past the buffer writes nothing.
ghost use Rattle.std.specs.Prelude.{◌≡◌, ◌+◌, ◌-◌, ◌≤◌, length, take};
ghost use Rattle.paper.specs.States.{pad};
ghost use Rattle.paper.specs.Calls.{laid};
ghost use Rattle.laws.specs.Lists.{spliced};
ghost use Rattle.plans.specs.Store.{NoRoom, Stores, two_put};
ghost use Rattle.plans.specs.Blank.{Blanks};
ghost use Rattle.plans.specs.Exchange.{Exchanges};
ghost use Rattle.plans.specs.Moving.{Moved, Rewritable};

use crate::card::Slot;
use zeros::clear;

// A loop, since `copy_from_slice` would make the archive for C need memmove.
fn copy(part: &mut [u8], bytes: &[u8])
    requires { length bytes.now ≤ length part.old }
    ensures { part.new ≡ laid bytes.now part.old }
{
    for (i, &b) in bytes.iter().enumerate() {
        part[i] = b;
    }
}

fn fill_slot(slot: &mut [u8], bytes: &[u8])
    requires { length bytes.now ≤ length slot.old }
    ensures { slot.new ≡ pad (length slot.old) bytes.now }
{
    copy(slot, bytes);
    let used = bytes.len();
    clear(&mut slot[used..]);
}

// Whether the slot does not fit a buffer of `len` bytes, or its length does not stand before it.
fn no_room(len: usize, slot: Slot) -> bool
    ensures { NoRoom len slot.base slot.size slot.place result }
{
    let Slot { base, size, place } = slot;
    base < 2 || base - 2 < place || len < base || len - base < size
}

fn put_two(state: &mut [u8], place: usize, n: usize)
    requires { place + 2 ≤ length state.old }
    ensures { state.new ≡ two_put place n state.old }
{
    state[place..place + 2].copy_from_slice(&((n % 65536) as u16).to_be_bytes());
}

// The bytes in the slot, with zeros behind them, and how many they are. Where they do not fit the slot, the slot does not fit the buffer, or the
// length does not stand before it, nothing changes.
pub fn store(state: &mut [u8], slot: Slot, bytes: &[u8])
    ensures { Stores slot.base slot.size slot.place bytes.now state.old state.new }
{
    if slot.size < bytes.len() || no_room(state.len(), slot) {
        return;
    }
    let end = slot.base + slot.size;
    fill_slot(&mut state[slot.base..end], bytes);
    put_two(state, slot.place, bytes.len());
}

// The bytes from `from` up to `end` go to `to`. Where they stand there already, `copy_within` would still go over each of them.
fn shift(slot: &mut [u8], from: usize, end: usize, to: usize)
    requires { (from ≤ end) × (end ≤ length slot.old) × (to + (end - from) ≤ length slot.old) }
    ensures { Moved from to 0 (end - from) slot.old slot.new }
{
    if from != to {
        slot.copy_within(from..end, to);
    }
}

fn rewrite(slot: &mut [u8], used: usize, p: usize, q: usize, mid: &[u8])
    requires { Rewritable used p q mid.now slot.old }
    ensures { slot.new ≡ pad (length slot.old) (spliced (take used slot.old) p q mid.now) }
{
    let r = p + mid.len();
    let n = used - q;
    shift(slot, q, used, r);
    copy(&mut slot[p..r], mid);
    let end = r + n;
    clear(&mut slot[end..]);
}

// The bytes from p up to q of those that fill a slot are exchanged for `mid`, those behind move up or down, zeros stand behind them as far as the
// old ones reached, and the slot's length says how many there are then. `used` is the slot as far as it is filled. Where p, q and its size are not
// in order, or what is touched does not fit the buffer, nothing changes.
pub fn exchange(state: &mut [u8], used: Slot, p: usize, q: usize, mid: &[u8])
    ensures { Exchanges used.base used.size used.place p q mid.now state.old state.new }
{
    if q < p || used.size < q || state.len() < used.size {
        return;
    }
    let n = used.size - (q - p) + mid.len();
    let size = used.size.max(n);
    let slot = Slot { size, ..used };
    if no_room(state.len(), slot) {
        return;
    }
    let end = slot.base + size;
    rewrite(&mut state[slot.base..end], used.size, p, q, mid);
    put_two(state, slot.place, n);
}

// A plan of `size` bytes with nothing in it. Where it does not fit the buffer, or is shorter than its own first three bytes, nothing changes.
pub fn blank(state: &mut [u8], size: usize)
    ensures { Blanks size state.old state.new }
{
    if size < 3 || state.len() < size {
        return;
    }
    clear(&mut state[..size]);
    put_two(state, 0, size - 2);
    state[2] = 1;
}
