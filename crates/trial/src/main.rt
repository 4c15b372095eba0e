// The trial program: an image and a schedule on standard input, the trial's text on standard output. An image over 4,096 bytes is refused with 2
// whatever follows it, and of a schedule 8,192 bytes count: so 12,288 bytes are read, and what follows them changes nothing (trial_texts/Enough).
#![tactic(auto)]

use std::io;
use trial_texts::trial::trial_text;

fn main(rt: HostRuntime) -> io::Result<()> {
    let mut input = [0u8; 12288];
    let n = intake::fill(&mut rt.stdin(), &mut input)?;
    let mut state = [0u8; 49408];
    let mut work = [0u8; 40960];
    let mut text = [0u8; 74262];
    match trial_text(&input[..n], &mut state, &mut work, &mut text) {
        Ok(end) => rt.write_all(&text[..end]),
        Err(_) => Ok(()),
    }
}
