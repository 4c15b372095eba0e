// The two runs. Their parts are whole words, so they are written through references.
ghost use Rattle.bench.specs.Running.{RunsC, DefaultRunsC};

use machine::default_run::default_run;
use machine::run::run;

pub fn laverockin_run(state: &mut [u8], schedule: &[u8], steps: &mut u64, last: &mut u64)
    ensures { RunsC state.old schedule.now state.new steps.new last.new }
{
    let ran = run(state, schedule);
    *steps = ran.steps as u64;
    *last = u64::from(ran.last);
}

pub fn laverockin_default_run(state: &mut [u8], limit: u64, steps: &mut u64) -> u64
    ensures { DefaultRunsC state.old limit state.new steps.new result }
{
    match default_run(state, limit) {
        Ok(n) => {
            *steps = n;
            0
        }
        Err(unfit) => {
            *steps = 0;
            u64::from(unfit.number())
        }
    }
}
