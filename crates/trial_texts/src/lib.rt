// The trial's text (document 01, "Bench examples"), written into a lent buffer: the judge's line, which `texts` writes, and behind it the steps of
// what the raw load loads.
#![tactic(auto)]

mod lines; // lines.rt: a load's refusal, a step, a race
mod steps; // steps.rt: the lines of the steps that a schedule or the default run makes
pub mod trial; // trial.rt: the trial's text
