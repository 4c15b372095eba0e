// The judge's text.
ghost use Rattle.texts.specs.JudgeText.{JudgeTexts};

use crate::lines::{accept_line, refuse_line};
use judging::entry::judge;

// A lent buffer is too short for the work or the text.
#[derive(Clone, Copy, Debug, PartialEq, Eq)]
pub struct ShortBuffer;

// The judge's line for an image, first in the lent buffer; how many bytes it has.
pub fn judge_text(image: &[u8], work: &mut [u8], out: &mut [u8]) -> Result<usize, ShortBuffer>
    ensures { JudgeTexts image.now work.old out.old result work.new out.new }
{
    if work.len() < 40960 || out.len() < 520 {
        return Err(ShortBuffer);
    }
    let mut types = [0u8; 256];
    let end = match judge(image, &mut types, work) {
        Ok(n) => accept_line(&types[..n], out),
        Err(refusal) => refuse_line(refusal, out),
    };
    Ok(end.unwrap()) // 520 bytes have room for either line
}
