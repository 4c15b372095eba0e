// From the code of the part that makes the step to the kind of step. The codes are bytes by name, as slots has them: a part may begin with any byte,
// and one that is no code, or none with a step, is stuck.
ghost use Rattle.std.specs.Prelude.{◌≡◌, ◌<◌, ◌≤◌, length};
ghost use Rattle.slots.specs.Walk.{skip_of};
ghost use Rattle.machine.specs.Cuts.{Cut2};
ghost use Rattle.machine.specs.Cutting.{Second, Redex};
ghost use Rattle.machine.specs.Acting.{Acts};
ghost use Rattle.plans.specs.Card.{card_of};

use crate::act::Goes;
use crate::answer::NoStep;
use crate::kinds::{
    add, apply, bind, branch, fork, make_cell, make_lock, read, release, take, went_on, write,
};
use crate::parts::Parts;
use places::byte_at;
use plans::card::Card;
use slots::codes::{
    ADD, APPLY, FORK, IF, LET, NEW_CELL, NEW_LOCK, OPEN, READ, SECTION, THEN, WRITE,
};
use slots::walk::skip;

// Where the part behind the first begins, if that is not known already.
fn second_from(s: &[u8], second: Option<usize>) -> usize
    requires begins { Second s.now second }
    requires stands { 1 < skip_of s.now 1 }
    ensures { result ≡ skip_of s.now 1 }
{
    match second {
        Some(e) => e,
        None => skip(s, 1).unwrap(),
    }
}

fn parts(s: &[u8], second: Option<usize>) -> Parts
    requires begins { Second s.now second }
    requires cut { Cut2 s.now 1 (skip_of s.now 1) (length s.now) }
    requires short { length s.now ≤ 2048 }
    ensures bytes { result.bytes.now ≡ s.now }
    ensures second { result.second ≡ skip_of s.now 1 }
{
    Parts {
        bytes: s,
        second: second_from(s, second),
    }
}

// What the part whose bytes are s does, on the state; what it becomes goes to `out`. Its own second part begins at `second`, or is still to be
// found.
pub(crate) fn act(
    s: &[u8],
    second: Option<usize>,
    state: &[u8],
    card: Card,
    out: &mut [u8],
    stack: &mut [u8; 4096],
) -> Result<Goes, NoStep>
    requires { Redex s.now second }
    ensures { Acts (card_of card) s.now state.now (length out.old) out.new result }
{
    match s[0] {
        APPLY => apply(parts(s, second), out, stack),
        NEW_CELL => make_cell(s, byte_at(state, 4), card, out),
        READ => read(s, state, card, out),
        WRITE => write(parts(s, second), card.cell_bytes, out),
        FORK => fork(s, byte_at(state, 3), card.threads, out),
        NEW_LOCK => make_lock(s, byte_at(state, 5), card.locks, out, stack),
        SECTION => take(parts(s, second), state, out),
        LET => bind(parts(s, second), out, stack),
        THEN => went_on(parts(s, second), out),
        ADD => add(parts(s, second), out),
        IF => {
            let g = second_from(s, second);
            branch(s, g, skip(s, g).unwrap(), out)
        }
        OPEN => release(s, out),
        _ => Err(NoStep::IsStuck),
    }
}
