//! The program `review`: the words of the command line, the system's files and streams, and the status.
#![tactic(auto)]

use job_core::{no_memory, words};
use net_io::{RealFiles, RealSink};
use review_core::run;
use std::process::ExitCode;
use steal_pool::OpenGate;

fn main(rt: HostRuntime) -> ExitCode {
    let alloc = rt.alloc();
    let mut files = RealFiles::new(&rt);
    let mut out = RealSink::new(rt.stdout());
    let mut err = RealSink::new(rt.stderr());
    ExitCode::from(match words(&rt) {
        Ok(words) => run(
            &rt, alloc, &words, &mut files, &mut out, &mut err, &OpenGate,
        ),
        Err(_) => no_memory(&mut err),
    })
}
