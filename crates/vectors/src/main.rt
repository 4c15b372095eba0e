// Runs vectors through the library: a line of standard input each, of the kind that its first letter says. What a vector's call
// answers and every byte of the buffers lent to it are held to what the line says is due. A line is printed for each vector
// that is run, and at the end how many of each kind were run and how many failed.
#![tactic(auto)]

mod kinds; // kinds.rt: the kinds of lines
mod buffers; // buffers.rt: the buffers
mod fields; // fields.rt: the fields of a line
mod sparse; // sparse.rt: a state as a field
mod rows; // rows.rt: an answer as the numbers of a line
mod due; // due.rt: the comparisons
mod calls; // calls.rt: a call of the machine, and its comparison
mod judge_lines; // judge_lines.rt: the lines of the judge
mod load_lines; // load_lines.rt: the lines of the two loads
mod lister_lines; // lister_lines.rt: the lines of the lister
mod race_lines; // race_lines.rt: the lines of the race finder
mod step_lines; // step_lines.rt: the lines of the step
mod run_lines; // run_lines.rt: the lines of the two runs
mod text_lines; // text_lines.rt: the lines of the trial's text
mod reports; // reports.rt: what is printed, and the counts

use buffers::{INPUT, filled};
use kinds::{Kind, kind_of};
use lines::cut::{LINE_END, before, parted};
use reports::{Counts, Outcome};
use std::io;

// Whether everything was as due. None where a field of the line is not what it should be.
fn run(kind: Kind, line: &[u8]) -> Option<bool> {
    match kind {
        Kind::Judge => judge_lines::judged(line),
        Kind::RawLoad => load_lines::raw_loaded(line),
        Kind::JudgedLoad => load_lines::judged_loaded(line),
        Kind::Lister => lister_lines::listed(line),
        Kind::Trial => text_lines::tried(line),
        Kind::Step => step_lines::stepped(line),
        Kind::Race => race_lines::raced(line),
        Kind::Run => run_lines::scheduled(line),
        Kind::DefaultRun => run_lines::by_default(line),
    }
}

fn one(rt: &impl Print, line: &[u8], number: usize, counts: &mut Counts) -> io::Result<()> {
    let Ok(kind) = kind_of(line) else {
        return reports::unreadable(rt, number);
    };
    let outcome = Outcome::from(run(kind, line));
    counts.add(kind, outcome);
    reports::vector(rt, kind, number, outcome)
}

fn run_all(rt: &impl Print, s: &[u8]) -> io::Result<()> {
    let mut counts = Counts::new();
    let mut number = 0;
    let mut left = s;
    while !left.is_empty() {
        let (line, behind) = parted(left, LINE_END);
        number = reports::more(number);
        one(rt, line, number, &mut counts)?;
        left = behind;
    }
    short_buffers(rt, before(s, LINE_END))?;
    counts.print(rt)
}

fn short_buffers(rt: &impl Print, line: &[u8]) -> io::Result<()> {
    let types = Outcome::from(judge_lines::with_short_types(line));
    println!(rt; "short type buffer {types}")?;
    let work = Outcome::from(judge_lines::with_short_work(line));
    println!(rt; "short work buffer {work}")
}

fn main(rt: HostRuntime) -> io::Result<()> {
    let mut input = filled::<INPUT>(0);
    let n = intake::fill(&mut rt.stdin(), &mut input)?;
    if n == INPUT {
        println!(&rt; "input too long")?;
    }
    run_all(&rt, &input[..n])
}
