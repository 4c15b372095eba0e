// Vectors as text: a vector is a line, its fields are parted by blanks, numbers are decimal and bytes are pairs of hex digits.
// Every function answers on all text, so that a program which runs vectors can say which line it could not read.
#![tactic(auto)]

pub mod cut; // cut.rt: what stands before and after the first of a byte
pub mod digits; // digits.rt: what the digits of a field spell
