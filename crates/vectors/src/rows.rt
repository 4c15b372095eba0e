// An answer as the numbers that a line has for it, and the comparison with those that are due.
ghost use Rattle.std.specs.Prelude.{◌≡◌};
ghost use Rattle.vectors.specs.Due.{Exactly};
ghost use Rattle.vectors.specs.Rows.{refusal_row, judge_row, load_row, step_row, race_row, ran_row, default_row, item_row, text_row, RowAsDue};

use answers::Refusal;
use lister::Item;
use machine::answer::{Made, NoStep};
use machine::numbers::answer_of;
use machine::run::Ran;
use states::Unfit;
use states::races::Pair;
use texts::entry::ShortBuffer;

// The answer's number, and the numbers that it has beside it.
#[derive(Clone, Copy, Debug, PartialEq, Eq)]
pub(crate) enum Row {
    Alone(usize),
    One(usize, usize),
    Two(usize, usize, usize),
    Three(usize, usize, usize, usize),
}

fn refusal_row(refusal: Refusal) -> Row
    ensures { result ≡ refusal_row refusal }
{
    Row::One(usize::from(refusal.number()), refusal.place())
}

pub(crate) fn judge_row(verdict: Result<usize, Refusal>) -> Row
    ensures { result ≡ judge_row verdict }
{
    match verdict {
        Ok(size) => Row::One(0, size),
        Err(refusal) => refusal_row(refusal),
    }
}

pub(crate) fn load_row(loaded: Result<(), Refusal>) -> Row
    ensures { result ≡ load_row loaded }
{
    match loaded {
        Ok(()) => Row::One(0, 0),
        Err(refusal) => refusal_row(refusal),
    }
}

#[tactic(auto, unfolding(paper::specs::Cases::told))]
pub(crate) fn step_row(answer: Result<Made, NoStep>) -> Row
    ensures { result ≡ step_row answer }
{
    match answer {
        Ok(made) => Row::Two(0, usize::from(made.kind.number()), made.number),
        Err(why) => match why {
            NoStep::WaitsFor(lock) => Row::Two(21, 0, lock),
            _ => Row::Two(usize::from(answer_of(answer)), 0, 0),
        },
    }
}

#[tactic(auto, unfolding(paper::specs::Cases::told_race))]
pub(crate) fn race_row(race: Result<Option<Pair>, Unfit>) -> Row
    ensures { result ≡ race_row race }
{
    match race {
        Ok(Some(pair)) => Row::Three(0, pair.first, pair.second, pair.cell),
        Ok(None) => Row::Alone(0),
        Err(unfit) => Row::Alone(usize::from(unfit.number())),
    }
}

pub(crate) fn run_row(ran: Ran) -> Row
    ensures { result ≡ ran_row ran }
{
    Row::One(usize::from(ran.last), ran.steps)
}

#[tactic(auto, unfolding(paper::specs::Cases::told_default))]
pub(crate) fn default_row(run: Result<u64, Unfit>) -> Row
    ensures { result ≡ default_row run }
{
    match run {
        Ok(steps) => Row::One(0, steps as usize),
        Err(unfit) => Row::One(usize::from(unfit.number()), 0),
    }
}

pub(crate) fn item_row(item: Result<Option<Item>, Refusal>) -> Row
    ensures { result ≡ item_row item }
{
    match item {
        Ok(Some(item)) => Row::Three(0, usize::from(u8::from(item.code)), item.place, item.next),
        Ok(None) => Row::Alone(0),
        Err(refusal) => refusal_row(refusal),
    }
}

pub(crate) fn text_row(text: Result<usize, ShortBuffer>) -> Row
    ensures { result ≡ text_row text }
{
    match text {
        Ok(n) => Row::One(0, n),
        Err(_) => Row::Alone(1),
    }
}

// An answer, and every byte of a buffer.
pub(crate) fn as_due(row: Row, due: Row, buffer: &[u8], expected: &[u8]) -> bool
    ensures { Exactly result (RowAsDue row due buffer.now expected.now) }
{
    row == due && buffer == expected
}
