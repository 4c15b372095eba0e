// What is printed, and the counts by kind.
use crate::kinds::{KINDS, Kind};
use std::{fmt, io};

#[derive(Clone, Copy, Debug, PartialEq, Eq)]
pub(crate) enum Outcome {
    Passed,
    Failed,
    Unreadable,
}

// Whether everything was as due; None: the line could not be read.
impl From<Option<bool>> for Outcome {
    fn from(as_due: Option<bool>) -> Outcome {
        match as_due {
            Some(true) => Outcome::Passed,
            Some(false) => Outcome::Failed,
            None => Outcome::Unreadable,
        }
    }
}

impl fmt::Display for Outcome {
    fn fmt<W: fmt::Write>(&self, f: &mut fmt::Formatter<W>) -> fmt::Result {
        f.write_str(match self {
            Outcome::Passed => "ok",
            Outcome::Failed => "FAIL",
            Outcome::Unreadable => "unreadable",
        })
    }
}

// Stops at a million.
pub(crate) fn more(n: usize) -> usize {
    n.saturating_add(1).min(1000000)
}

// How many vectors of a kind were run, and how many of them failed.
#[derive(Clone, Copy, Debug)]
struct Count {
    run: usize,
    failed: usize,
}

#[derive(Clone, Copy, Debug)]
pub(crate) struct Counts {
    of: [Count; 9],
}

impl Counts {
    pub(crate) fn new() -> Counts {
        Counts {
            of: [Count { run: 0, failed: 0 }; 9],
        }
    }

    pub(crate) fn add(&mut self, kind: Kind, outcome: Outcome) {
        let count = &mut self.of[kind as usize];
        match outcome {
            Outcome::Passed => count.run = more(count.run),
            Outcome::Failed => {
                count.run = more(count.run);
                count.failed = more(count.failed);
            }
            Outcome::Unreadable => {}
        }
    }

    // A line for each kind that was run.
    pub(crate) fn print(&self, rt: &impl Print) -> io::Result<()> {
        let kinds = KINDS;
        for (kind, Count { run, failed }) in kinds.iter().zip(&self.of) {
            if 0 < *run {
                println!(rt; "{run} {kind} run, {failed} failed")?;
            }
        }
        Ok(())
    }
}

pub(crate) fn unreadable(rt: &impl Print, number: usize) -> io::Result<()> {
    println!(rt; "line {number} unreadable")
}

pub(crate) fn vector(
    rt: &impl Print,
    kind: Kind,
    number: usize,
    outcome: Outcome,
) -> io::Result<()> {
    match outcome {
        Outcome::Passed | Outcome::Failed => println!(rt; "{kind} {number} {outcome}"),
        Outcome::Unreadable => unreadable(rt, number),
    }
}
