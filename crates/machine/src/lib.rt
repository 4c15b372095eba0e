// One step of a thread on a state buffer (document 01, "The running state"): what the part at the place of evaluation does, and what that
// changes in the buffer; and the two runs of steps. Every contract below the step is about the terms that stand in the bytes; the step's own, and those
// of the runs, are the paper's calls.
#![tactic(auto)]

pub mod answer; // answer.rt: what a step answers
mod act; // act.rt: what a step can be
mod parts; // parts.rt: a part with two parts of its own
mod kinds; // kinds.rt: the kinds of step, on the bytes of the part that makes it
mod dispatch; // dispatch.rt: from the code to the kind
mod change; // change.rt: the stores of a change
mod scratch; // scratch.rt: what a step works in
pub mod step; // step.rt: the step
pub mod entry; // entry.rt: the public step
pub mod numbers; // numbers.rt: document 01's number of each answer
pub mod run; // run.rt: the run of a schedule
pub mod default_run; // default_run.rt: the default run
