//! The program `doctor`: the words of the command line, the system's files and streams, and the status.
#![tactic(auto)]

use doctor_core::doctor_run;
use job_core::{no_memory, words};
use net_io::{RealFiles, RealSink};
use std::process::ExitCode;

fn main(rt: HostRuntime) -> ExitCode {
    let alloc = rt.alloc();
    let mut files = RealFiles::new(&rt);
    let mut out = RealSink::new(rt.stdout());
    let mut err = RealSink::new(rt.stderr());
    ExitCode::from(match words(&rt) {
        Ok(words) => doctor_run(alloc, &words, &mut files, &mut out, &mut err),
        Err(_) => no_memory(&mut err),
    })
}
