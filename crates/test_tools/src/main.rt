//! The programs `rollout` and `view` as they are run, over files and outputs in memory: what they write, what they refuse, and
//! what they answer where files or outputs fail. What each case must give follows from the rules, and stands in the file
//! `stdout` beside this folder.
#![tactic(auto)]

mod audits;
mod edits;
mod rollouts;
mod runs;
mod views;

use std::io;
use std::sync::Wait;
use std::thread::Threads;
use test_stop::Stop;

fn show_all<R: Threads + Wait + Sync>(rt: &HostRuntime, threads: &R) -> Result<(), Stop> {
    audits::show(rt, threads)?;
    edits::show(rt, threads)?;
    rollouts::show(rt, threads)?;
    views::show(rt, threads)
}

fn main(rt: HostRuntime) -> io::Result<()> {
    match show_all(&rt, &rt) {
        Ok(()) => Ok(()),
        Err(Stop::NoMemory) => println!(rt; "no memory"),
        Err(Stop::Output { error }) => Err(error),
    }
}
