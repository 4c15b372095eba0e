// The trial's text: the judge's line, and the steps of what the raw load loads.
ghost use Rattle.std.specs.Prelude.{◌≤◌, length};
ghost use Rattle.paper.specs.States.{sixteen};
ghost use Rattle.paper.specs.Texts.{run_text};
ghost use Rattle.trial_texts.specs.Along.{Prints};
ghost use Rattle.trial_texts.specs.Input.{Image, Schedule};
ghost use Rattle.trial_texts.specs.LoadText.{RunReady, LoadReady, LoadPrints};
ghost use Rattle.trial_texts.specs.TrialText.{TrialTexts};

use crate::lines::load_line;
use crate::steps::{default_text, schedule_text};
use answers::Refusal;
use loads::entry::raw_load;
use places::two_at;
use texts::entry::{ShortBuffer, judge_text};
use zeros::clear;

// How many bytes of the input are the image.
fn image_length(input: &[u8]) -> usize
    ensures { Image input.now result }
{
    if input.len() < 2 {
        return input.len();
    }
    (two_at(input, 0) + 2).min(input.len())
}

// Where the schedule ends that begins behind the image.
fn schedule_end(input: &[u8], from: usize) -> usize
    requires { from ≤ length input.now }
    ensures { Schedule input.now from result }
{
    from + (input.len() - from).min(8192)
}

// The steps of the schedule, or of the default run where there is none.
fn run_text(schedule: &[u8], state: &mut [u8], out: &mut [u8], at: usize) -> usize
    requires { RunReady schedule.now state.old out.old at }
    ensures { Prints (run_text sixteen schedule.now) state.old out.old at state.new out.new result }
{
    if schedule.is_empty() {
        return default_text(state, out, at);
    }
    schedule_text(schedule, state, out, at)
}

// What the raw load gives, run; or its refusal. Any but its own, that the erased form is too long, is one of the first reading, 2 to 9: it is the judge's
// too, and no more is printed.
fn load_text(image: &[u8], schedule: &[u8], state: &mut [u8], out: &mut [u8], at: usize) -> usize
    requires { LoadReady schedule.now state.old out.old at }
    ensures { LoadPrints image.now schedule.now state.old out.old at state.new out.new result }
{
    match raw_load(image, state) {
        Ok(()) => run_text(schedule, state, out, at),
        Err(refusal) => match refusal {
            Refusal::ErasedLong => load_line(refusal.number(), out, at).unwrap(), // shorter than the run's lines, which have room
            _ => at,
        },
    }
}

// The trial's text for an input, first in the lent buffer. The state's bytes are zero afterwards. That the work buffer is too short is told by the
// judge's text, which then has changed nothing.
pub fn trial_text(
    input: &[u8],
    state: &mut [u8],
    work: &mut [u8],
    out: &mut [u8],
) -> Result<usize, ShortBuffer>
    ensures { TrialTexts input.now state.old work.old out.old result state.new work.new out.new }
{
    if state.len() < 49408 || out.len() < 74262 {
        return Err(ShortBuffer);
    }
    let n = image_length(input);
    let m = schedule_end(input, n);
    let at = judge_text(&input[..n], work, out)?;
    let end = load_text(&input[..n], &input[n..m], state, out, at);
    clear(&mut state[..49408]);
    Ok(end)
}
