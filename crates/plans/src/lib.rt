// The state buffer byte by byte: what stands where, reading it, changing it. What a store makes of a state is in specs/.
#![tactic(auto)]

pub mod card; // card.rt: what a card has room for
pub mod store; // store.rt: bytes, lengths and slots of a buffer
