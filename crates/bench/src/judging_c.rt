// The judge: the length that is packed is the type's.
ghost use Rattle.bench.specs.Judging.{JudgesC};

use crate::pack::pack;
use judging::entry::judge;

pub fn laverockin_judge(image: &[u8], types: &mut [u8], work: &mut [u8]) -> u64
    ensures { JudgesC image.now types.old work.old result types.new work.new }
{
    pack(judge(image, types, work))
}
