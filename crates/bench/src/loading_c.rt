// The two loads: where the image is loaded, nothing stands above the number.
ghost use Rattle.bench.specs.Loading.{RawLoadsC, JudgedLoadsC};

use crate::pack::pack;
use loads::entry::{judged_load, raw_load};

pub fn laverockin_raw_load(image: &[u8], state: &mut [u8]) -> u64
    ensures { RawLoadsC image.now state.old result state.new }
{
    pack(raw_load(image, state).and(Ok(0)))
}

pub fn laverockin_judged_load(image: &[u8], state: &mut [u8], work: &mut [u8]) -> u64
    ensures { JudgedLoadsC image.now state.old work.old result state.new work.new }
{
    pack(judged_load(image, state, work).and(Ok(0)))
}
