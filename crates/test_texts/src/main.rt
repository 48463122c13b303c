//! Texts in and out: configurations, folders and link tables that are read, what is found in them, command lines, and reports and fields
//! that are read back. What each case must give follows from the rules, and stands in the file `stdout` beside this folder.
#![tactic(auto)]

mod cases;
mod checks;
mod configs;
mod devices;
mod folders;
mod lines;
mod links;
mod networks;
mod oddities;
mod places;
mod reading;

use std::io;
use test_stop::Stop;

fn show_all(rt: &HostRuntime) -> Result<(), Stop> {
    reading::show(rt)?;
    checks::show(rt)?;
    lines::show(rt)?;
    cases::show(rt)
}

fn main(rt: HostRuntime) -> io::Result<()> {
    match show_all(&rt) {
        Ok(()) => Ok(()),
        Err(Stop::NoMemory) => println!(rt; "no memory"),
        Err(Stop::Output { error }) => Err(error),
    }
}
