// The lines of the steps that a schedule or the default run makes, on a state buffer that holds a state.
ghost use Rattle.std.specs.Prelude.{◌+◌, ◌*◌, length};
ghost use Rattle.paper.specs.States.{sixteen};
ghost use Rattle.paper.specs.Runs.{tried, lowest};
ghost use Rattle.paper.specs.Texts.{schedule_text, default_text};
ghost use Rattle.trial_texts.specs.StepText.{Ready, Races, Tries};
ghost use Rattle.trial_texts.specs.Along.{Prints};

use crate::lines::{race_line, three};
use machine::entry::step;
use places::byte_at;
use states::race;
use std::ops::ControlFlow;

// The race's line, if there is one after a step: the text ends behind it, or goes on from where it was. There is room for it: `Ready`.
fn after_step(state: &[u8], out: &mut [u8], at: usize) -> ControlFlow<usize, usize>
    requires { Ready 14 state.now out.old at }
    ensures { Races state.now out.old at out.new result }
{
    match race(state) {
        Ok(Some(pair)) => {
            let end = race_line(pair.first, pair.second, pair.cell, out, at).unwrap();
            ControlFlow::Break(end)
        }
        // Two arms: an or-pattern with `Ok(None)` in it gives the proof no facts.
        Ok(None) => ControlFlow::Continue(at),
        Err(_) => ControlFlow::Continue(at),
    }
}

// The line of a thread's step, and the race after it, for which there is room: `Ready`. None where it makes no step.
fn step_line(
    state: &mut [u8],
    thread: u64,
    out: &mut [u8],
    at: usize,
) -> Option<ControlFlow<usize, usize>>
    requires { Ready 23 state.old out.old at }
    ensures { Tries (λ S. tried sixteen S thread) state.old out.old at state.new out.new result }
{
    let Ok(made) = step(state, thread) else {
        return None;
    };
    let kind = u64::from(made.kind.number());
    let next = three(thread, kind, made.number as u64, out, at).unwrap();
    Some(after_step(state, out, next))
}

// The steps of a schedule. The answer is the place after their text.
pub(crate) fn schedule_text(schedule: &[u8], state: &mut [u8], out: &mut [u8], at: usize) -> usize
    requires { Ready (9 * length schedule.now + 14) state.old out.old at }
    ensures { Prints (schedule_text sixteen schedule.now) state.old out.old at state.new out.new result }
{
    let mut end = at;
    for thread in schedule {
        let Some(line) = step_line(state, u64::from(*thread), out, end) else {
            continue;
        };
        match line {
            ControlFlow::Continue(next) => end = next,
            ControlFlow::Break(last) => return last,
        }
    }
    end
}

// The line of the lowest-numbered thread that can step.
fn lowest_line(state: &mut [u8], out: &mut [u8], at: usize) -> Option<ControlFlow<usize, usize>>
    requires { Ready 23 state.old out.old at }
    ensures { Tries (lowest sixteen) state.old out.old at state.new out.new result }
{
    let count = byte_at(state, 3) as u64;
    for thread in 0..count {
        let line = step_line(state, thread, out, at);
        if line.is_some() {
            return line;
        }
    }
    None
}

// The steps of the default run, limit 1,000.
pub(crate) fn default_text(state: &mut [u8], out: &mut [u8], at: usize) -> usize
    requires { Ready 9014 state.old out.old at }
    ensures { Prints (default_text sixteen 1000) state.old out.old at state.new out.new result }
{
    let mut end = at;
    for turn in 0..1000usize {
        let Some(line) = lowest_line(state, out, end) else {
            return end;
        };
        match line {
            ControlFlow::Continue(next) => end = next,
            ControlFlow::Break(last) => return last,
        }
    }
    end
}
