// The judge: the whole image is read before anything is typed.
ghost use Rattle.std.specs.Prelude.{◌≤◌, length};
ghost use Rattle.judging.specs.Entry.{Judges, Comes};

use crate::{copies, typing};
use answers::Refusal;
use reading::scope::Scope;

// What the whole expression stands under.
const OUTERMOST: Scope = Scope {
    vars: 0,
    locks: 0,
    left: 64,
};

// The judge, on buffers that are long enough; the work buffer is left as the typing leaves it.
fn judge_within(image: &[u8], types: &mut [u8], work: &mut [u8]) -> Result<usize, Refusal>
    requires { (256 ≤ length types.old) × (40960 ≤ length work.old) }
    ensures { Comes image.now types.old work.old result types.new work.new }
{
    reading::image::read_image(image)?;
    typing::judge(image, 3, work, OUTERMOST)?;
    Ok(copies::give(work, 20736, types))
}

// The judge: an image, a type buffer and a work buffer. The number of the type's bytes; or why the image is refused, and where.
pub fn judge(image: &[u8], types: &mut [u8], work: &mut [u8]) -> Result<usize, Refusal>
    ensures { Judges image.now types.old work.old result types.new work.new }
{
    if types.len() < 256 || work.len() < 40960 {
        return Err(Refusal::ShortBuffer);
    }
    let size = judge_within(image, types, work);
    copies::clear(work);
    size
}
