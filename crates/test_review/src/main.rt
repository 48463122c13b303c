//! The program as it is run: worked comparisons, refusals, faults and limits over files in memory; the parts of a report; and
//! the files and writers of the system. What each case must give follows from the rules, and stands in the file `stdout` beside
//! this folder.
#![tactic(auto)]

mod causes;
mod comparisons;
mod faults;
mod filled;
mod gates;
mod hostile;
mod limits;
mod meetings;
mod memory;
mod names;
mod paths;
mod reports;
mod runs;
mod system;
mod tally;

use std::io;
use std::sync::Wait;
use std::thread::Threads;
use test_stop::Stop;

fn show_all<R: Threads + Wait + Sync>(rt: &HostRuntime, threads: &R) -> Result<(), Stop> {
    comparisons::show(rt, threads)?;
    faults::show_words(rt, threads)?;
    faults::show_rooms(rt, threads)?;
    faults::show_faults(rt, threads)?;
    limits::show(rt, threads)?;
    hostile::show(rt, threads)?;
    paths::show(rt, threads)?;
    comparisons::show_commands(rt, threads)?;
    meetings::show(rt, threads)?;
    show_parts(rt)
}

fn show_parts(rt: &HostRuntime) -> Result<(), Stop> {
    reports::show_cubes(rt)?;
    reports::show_numbers(rt)?;
    reports::show_outcomes(rt)?;
    reports::show_reports(rt)?;
    memory::show_sizes(rt)?;
    memory::show_calls(rt)?;
    memory::show_folders(rt)?;
    memory::show_rooms(rt)?;
    system::show_files(rt)?;
    system::show_writers(rt)
}

fn main(rt: HostRuntime) -> io::Result<()> {
    match show_all(&rt, &rt) {
        Ok(()) => Ok(()),
        Err(Stop::NoMemory) => println!(rt; "no memory"),
        Err(Stop::Output { error }) => Err(error),
    }
}
