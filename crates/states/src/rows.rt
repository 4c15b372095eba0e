// The used slots of a buffer that may hold a state. Places, sizes and counts are the caller's, so that every card is served; the lent stack
// is as long as the longest slot.
ghost use Rattle.std.specs.Prelude.{◌+◌, ◌≤◌, ◌<◌, length};
ghost use Rattle.states.specs.Decides.{Decides};
ghost use Rattle.states.specs.Rows.{Zeros, TextAt, Room, Rooms, AllTested};

use places::{is_clear, two_at};
use plans::card::Slot;

// So many slots from the first on, one behind the other, as their lengths are.
#[derive(Clone, Copy, Debug, PartialEq, Eq)]
pub(crate) struct Rows {
    pub(crate) first: Slot,
    pub(crate) count: usize,
}

// Whether there is no byte but 0 from place a up to e.
#[tactic(auto, using(crate::specs::RowWays::clear_decides))]
pub(crate) fn clear_between(s: &[u8], a: usize, e: usize) -> bool
    requires { (a ≤ e) × (e ≤ length s.now) }
    ensures { Decides result (Zeros a e s.now) }
{
    is_clear(&s[a..e])
}

// The bytes in slot i, if as many as its length says fit it, and it is zero behind them.
fn text(s: &[u8], rows: Rows, i: usize) -> Option<&[u8]>
    requires { Room rows.first.base rows.first.size rows.first.place i s.now }
    ensures { TextAt rows.first.base rows.first.size rows.first.place s.now i result }
{
    let Slot { base, size, place } = rows.first;
    let base = base + size * i;
    let n = two_at(s, place + 2 * i);
    if size < n || !clear_between(s, base + n, base + size) {
        return None;
    }
    Some(&s[base..base + n])
}

// Whether the bytes in each slot pass the test, which is lent the marks and the stack.
pub(crate) fn all_pass<F: Fn(&[u8], &mut [u8], &mut [u8]) -> bool>(
    s: &[u8],
    rows: Rows,
    marks: &mut [u8],
    stack: &mut [u8],
    test: F,
) -> bool
    requires rooms { Rooms rows.first.base rows.first.size rows.first.place rows.count s.now }
    requires callable { F.IsAlwaysCallable test }
    ensures { AllTested (F.post test) rows.first.base rows.first.size rows.first.place rows.count (length stack.old) s.now marks.old marks.new result }
{
    // Not `(0..rows.count).all(..)` with the marks and the stack in the closure: tried, and its check did not end in 100 s on a loaded machine.
    for i in 0..rows.count {
        let Some(t) = text(s, rows, i) else {
            return false;
        };
        if !test(t, marks, stack) {
            return false;
        }
    }
    true
}
