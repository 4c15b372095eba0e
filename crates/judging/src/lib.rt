// The judge.
#![tactic(auto)]

mod numbers; // numbers.rt: lock sets as numbers
mod shift; // shift.rt: raising and lowering the names of a type
mod copies; // copies.rt: copying a type, and passing over one
mod work; // work.rt: the places in the work buffer, and what the steps answer
mod scope; // scope.rt: what a part stands under
mod binding; // binding.rt: an expression without parts, and the variables that one with parts binds
mod first; // first.rt: the steps after an expression's first part
mod second; // second.rt: the steps after its second and third parts
mod typing; // typing.rt: the judge and its rules
pub mod entry; // entry.rt: the public judge
