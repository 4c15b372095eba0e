// Is it a state, on the bytes of the lent buffer; and the race finder over it (document 01, "The running state"). Both only read.
#![tactic(auto)]

mod rows; // rows.rt: the used slots of threads and cells
mod plan; // plan.rt: the header, the unused bytes, the whole plan
pub mod races; // races.rt: the race finder

ghost use Rattle.std.specs.Prelude.{◌≡◌};
ghost use Rattle.states.specs.IsState.{SaysState};
ghost use Rattle.states.specs.Unfit.{number, Checked};
ghost use Rattle.states.specs.RaceIs.{Raced};

use crate::plan::is_state_of;
use crate::races::{Pair, first_pair};
use places::byte_at;
use plans::card::SIXTEEN;

// Why a call on a buffer is refused before anything else is looked at: the rows 1 and 18 of document 01's table.
#[derive(Clone, Copy, Debug, PartialEq, Eq)]
pub enum Unfit {
    BufferShort = 1,
    NoState = 18,
}

impl Unfit {
    // Document 01's number.
    pub fn number(self) -> u8
        ensures { result ≡ number self }
    {
        self as u8
    }
}

// Whether the buffer's first 49,408 bytes are a state.
#[tactic(auto, using(laws::specs::Cards::sixteen_fits), unfolding(paper::specs::States::sixteen))]
pub fn is_state(state: &[u8]) -> bool
    ensures { SaysState state.now result }
{
    let mut marks = [0u8; 32];
    let mut stack = [0u8; 2048];
    is_state_of(state, SIXTEEN, &mut marks, &mut stack)
}

// Whether the buffer is fit for a call: long enough, and a state.
#[tactic(auto, using(laws::specs::Cards::sixteen_fits), unfolding(paper::specs::States::total))]
pub fn check_state(state: &[u8]) -> Result<(), Unfit>
    ensures { Checked state.now result }
{
    if state.len() < SIXTEEN.size() {
        return Err(Unfit::BufferShort);
    }
    if !is_state(state) {
        return Err(Unfit::NoState);
    }
    Ok(())
}

// The first pair of threads that are about to read or write one cell.
#[tactic(auto, using(laws::specs::Cards::sixteen_fits), unfolding(paper::specs::States::sixteen))]
pub fn race(state: &[u8]) -> Result<Option<Pair>, Unfit>
    ensures { Raced state.now result }
{
    check_state(state)?;
    Ok(first_pair(state, SIXTEEN, byte_at(state, 3)))
}
