// The judge's line (document 01, "Bench examples"), written into a lent buffer.
#![tactic(auto)]

mod lines; // lines.rt: its two forms
pub mod entry; // entry.rt: the judge's text
