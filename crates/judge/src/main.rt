// The judge program: an image on standard input, the judge's line on standard output. An image has at most 4,096 bytes, so one byte more
// is read than that, and what follows it changes nothing (texts/Enough).
#![tactic(auto)]

use std::io;
use texts::entry::judge_text;

fn main(rt: HostRuntime) -> io::Result<()> {
    let mut image = [0u8; 4097];
    // These stand before the reading: made after it, the 40,960 bytes were cleared twice.
    let mut work = [0u8; 40960];
    let mut line = [0u8; 520];
    let n = intake::fill(&mut rt.stdin(), &mut image)?;
    match judge_text(&image[..n], &mut work, &mut line) {
        Ok(end) => rt.write_all(&line[..end]),
        Err(_) => Ok(()),
    }
}
