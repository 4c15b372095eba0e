// Whether a buffer holds a state of a card, in one pass over its bytes. The card is the caller's, and so are the two buffers that it lends: room
// for a copy of the lock marks, and a stack as long as the longest slot.
ghost use Rattle.std.specs.Prelude.{◌≡◌, ◌+◌, ◌≤◌, length, take, drop};
ghost use Rattle.plans.specs.Card.{card_of};
ghost use Rattle.states.specs.Decides.{Decides};
ghost use Rattle.states.specs.Tested.{HeaderOf, WithinOf, UnusedOf, ReadyOf, PlannedOf, Tested};

use crate::rows::{Rows, all_pass, clear_between};
use places::{byte_at, is_clear, two_at};
use plans::card::Card;
use slots::sections::{Counts, cell_slot, thread_slot};

// How many threads, cells and locks the header says there are.
#[derive(Clone, Copy)]
struct Used {
    threads: usize,
    counts: Counts,
}

// Whether the first six bytes are those of a plan of the card, with counts within it.
#[tactic(auto, unfolding(paper::specs::States::total))]
fn is_header(s: &[u8], card: Card) -> bool
    ensures { Decides result (HeaderOf (card_of card) s.now) }
{
    let threads = usize::from(byte_at(s, 3));
    two_at(s, 0) == card.size() - 2
        && byte_at(s, 2) == 1
        && threads != 0
        && threads <= card.threads
        && usize::from(byte_at(s, 4)) <= card.cells
        && usize::from(byte_at(s, 5)) <= card.locks
}

// Whether the unused bytes are zero: marks, lengths, the header's end, slots.
fn is_unused(s: &[u8], card: Card, used: Used) -> bool
    requires { WithinOf (card_of card) used.threads used.counts s.now }
    ensures { Decides result (UnusedOf (card_of card) used.threads used.counts s.now) }
{
    let Used { threads, counts } = used;
    let from = card.cells_start();
    clear_between(s, 6 + counts.locks, 38)
        && clear_between(s, 38 + 2 * threads, 70)
        && clear_between(s, 70 + 2 * counts.cells, 256)
        && clear_between(s, 256 + threads * card.thread_bytes, from)
        && clear_between(s, from + counts.cells * card.cell_bytes, card.size())
}

// A copy of as many marks as there is room for.
fn copy_marks(s: &[u8], marks: &mut [u8])
    requires { 6 + length marks.old ≤ length s.now }
    ensures { marks.new ≡ take (length marks.old) (drop 6 s.now) }
{
    marks.copy_from_slice(&s[6..6 + marks.len()]);
}

// Whether a plan with this header holds so many threads, cells and locks: every section takes its lock's mark away, and none is left.
fn is_plan(s: &[u8], card: Card, used: Used, marks: &mut [u8], stack: &mut [u8]) -> bool
    requires { ReadyOf (card_of card) used.threads used.counts s.now marks.old }
    ensures { Decides result (PlannedOf (card_of card) used.threads used.counts (length stack.old) s.now) }
{
    let Used { threads, counts } = used;
    let threads_in = Rows {
        first: card.thread(0),
        count: threads,
    };
    let cells_in = Rows {
        first: card.cell(0),
        count: counts.cells,
    };
    copy_marks(s, marks);
    all_pass(
        s,
        threads_in,
        marks,
        stack,
        |t, marks, stack| thread_slot(t, counts, marks, stack),
    ) && is_clear(marks)
        && all_pass(
            s,
            cells_in,
            marks,
            stack,
            |t, _, stack| cell_slot(t, counts, stack),
        )
        && is_unused(s, card, used)
}

// Whether the buffer holds a state of the card.
pub(crate) fn is_state_of(s: &[u8], card: Card, marks: &mut [u8], stack: &mut [u8]) -> bool
    requires { card.locks ≤ length marks.old }
    ensures { Decides result (Tested (card_of card) (length stack.old) s.now) }
{
    if s.len() < card.size() || !is_header(s, card) {
        return false;
    }
    let used = Used {
        threads: usize::from(byte_at(s, 3)),
        counts: Counts {
            locks: usize::from(byte_at(s, 5)),
            cells: usize::from(byte_at(s, 4)),
        },
    };
    is_plan(s, card, used, &mut marks[..used.counts.locks], stack)
}
