//! Headers, cubes, rows, diagrams and classes of labels in small cases. A cube is written by its last eight bits, the flags of a header:
//! all earlier ones are `*`. What each line must say follows from the rules.
#![tactic(auto)]

mod classes;
mod compared;
mod diagrams;
mod headers;
mod interned;
mod labels;
mod pieces;
mod rows;
mod sets;
mod stamps;
mod text;
mod values;
mod worked;

use std::io;
use std::thread::Threads;
use test_stop::Stop;

fn show_all<R: Threads + Sync>(rt: &HostRuntime, threads: &R) -> Result<(), Stop> {
    headers::show_headers(rt)?;
    headers::show_cubes(rt)?;
    pieces::show_pairs(rt)?;
    pieces::show_rests(rt)?;
    pieces::show_cuts(rt)?;
    stamps::show(rt)?;
    rows::show(rt)?;
    diagrams::show(rt)?;
    sets::show(rt)?;
    values::show(rt)?;
    worked::show(rt)?;
    classes::show(rt, threads)
}

fn main(rt: HostRuntime) -> io::Result<()> {
    match show_all(&rt, &rt) {
        Ok(()) => Ok(()),
        Err(Stop::NoMemory) => println!(rt; "no memory"),
        Err(Stop::Output { error }) => Err(error),
    }
}
