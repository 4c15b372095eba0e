// The archive for C (include/laverockin.h): the functions of `bench`, each under its name and with its clause. They stand a second time because a crate
// is a library or the archive that the C interface needs.
#![tactic(auto)]

ghost use Rattle.bench.specs.Judging.{JudgesC};
ghost use Rattle.bench.specs.Loading.{RawLoadsC, JudgedLoadsC};
ghost use Rattle.bench.specs.Stepping.{StepsC};
ghost use Rattle.bench.specs.Racing.{RacesC};
ghost use Rattle.bench.specs.Running.{RunsC, DefaultRunsC};
ghost use Rattle.bench.specs.Listing.{ListsC};

use bench::{judging_c, listing_c, loading_c, racing_c, running_c, stepping_c};

#[unsafe(no_mangle)]
pub extern "C" fn laverockin_judge(image: &[u8], types: &mut [u8], work: &mut [u8]) -> u64
    ensures { JudgesC image.now types.old work.old result types.new work.new }
{
    judging_c::laverockin_judge(image, types, work)
}

#[unsafe(no_mangle)]
pub extern "C" fn laverockin_raw_load(image: &[u8], state: &mut [u8]) -> u64
    ensures { RawLoadsC image.now state.old result state.new }
{
    loading_c::laverockin_raw_load(image, state)
}

#[unsafe(no_mangle)]
pub extern "C" fn laverockin_judged_load(image: &[u8], state: &mut [u8], work: &mut [u8]) -> u64
    ensures { JudgedLoadsC image.now state.old work.old result state.new work.new }
{
    loading_c::laverockin_judged_load(image, state, work)
}

#[unsafe(no_mangle)]
pub extern "C" fn laverockin_step(state: &mut [u8], thread: u64) -> u64
    ensures { StepsC state.old thread result state.new }
{
    stepping_c::laverockin_step(state, thread)
}

#[unsafe(no_mangle)]
pub extern "C" fn laverockin_race(state: &[u8]) -> u64
    ensures { RacesC state.now result }
{
    racing_c::laverockin_race(state)
}

#[unsafe(no_mangle)]
pub extern "C" fn laverockin_run(state: &mut [u8], schedule: &[u8], steps: &mut u64, last: &mut u64)
    ensures { RunsC state.old schedule.now state.new steps.new last.new }
{
    running_c::laverockin_run(state, schedule, steps, last);
}

#[unsafe(no_mangle)]
pub extern "C" fn laverockin_default_run(state: &mut [u8], limit: u64, steps: &mut u64) -> u64
    ensures { DefaultRunsC state.old limit state.new steps.new result }
{
    running_c::laverockin_default_run(state, limit, steps)
}

#[unsafe(no_mangle)]
pub extern "C" fn laverockin_next(
    image: &[u8],
    at: usize,
    code: &mut u64,
    place: &mut usize,
    next: &mut usize,
) -> u64
    ensures { ListsC image.now at result code.new place.new next.new }
{
    listing_c::laverockin_next(image, at, code, place, next)
}
