// Code over the bytes of types: reading a stated type, and holding two types against each other.
#![tactic(auto)]

pub mod stated; // stated.rt: names, sets and types as an image states them
pub mod subtype; // subtype.rt: the subtype test
