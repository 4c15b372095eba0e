// The race finder.
ghost use Rattle.std.specs.Prelude.{◌≡◌};
ghost use Rattle.states.specs.RaceIs.{case_of};
ghost use Rattle.paper.specs.Cases.{told_race};
ghost use Rattle.bench.specs.Racing.{packed, Fits, RacesC};

use crate::pack::below;
use states::races::Pair;
use states::{Unfit, race};

// Above the number of the answer: in bits 8 to 15 whether there is a pair, and above them its two threads and the cell, 8 bits each.
fn pack(found: Result<Option<Pair>, Unfit>) -> u64
    requires { Fits (told_race (case_of found)) }
    ensures { result ≡ packed (told_race (case_of found)) }
{
    match found {
        Ok(Some(pair)) => {
            // `as`, since a `u8::try_from` would have an Err that no pair reaches.
            let threads = below(pair.first as u8, below(pair.second as u8, pair.cell as u64));
            below(0, below(1, threads))
        }
        Ok(None) => 0,
        Err(unfit) => u64::from(unfit.number()),
    }
}

pub fn laverockin_race(state: &[u8]) -> u64
    ensures { RacesC state.now result }
{
    pack(race(state))
}
