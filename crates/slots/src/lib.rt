// Code over the erased bytes of one slot of the running state (document 01, "The running state"), as functions of those bytes alone: what a
// state is made of and what a step is made of. The answers are fixed on all bytes; that they are the answers of the definitions on the
// bytes of a term is said by the laws beside each record (specs/, the files that end in `Term`).
//
// No function calls itself: an expression of a thread can be nested 2,048 deep. A pass that has to know how many binders are around a
// variable borrows a stack, one byte for each byte of the slot, so the lender's stack is the limit and no card's number stands here.
#![tactic(auto)]

pub mod codes; // codes.rt: what each code has
pub mod walk; // walk.rt: passing over an expression
mod stack; // stack.rt: what is open around an expression
mod closed; // closed.rt: is it one closed expression
pub mod way; // way.rt: where evaluation goes, and what it is about to touch
pub mod sections; // sections.rt: what a used slot may hold
pub mod put; // put.rt: put a value in, exchange a part
