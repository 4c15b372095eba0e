// What C calls (include/laverockin.h; bench_c exports it). Each is the library's own function, with its answer as one number: the parts stand at fixed bits, the
// number of the answer lowest.
#![tactic(auto)]

mod pack; // pack.rt: a part below the others
pub mod judging_c; // judging_c.rt: the judge
pub mod loading_c; // loading_c.rt: the two loads
pub mod stepping_c; // stepping_c.rt: the step
pub mod racing_c; // racing_c.rt: the race finder
pub mod running_c; // running_c.rt: the two runs
pub mod listing_c; // listing_c.rt: the lister
