// The two loads: an image to the first state.
#![tactic(auto)]

mod erasing; // erasing.rt: the erased form of an image that was read
pub mod entry; // entry.rt: the raw and the judged load
