//! Workers and what they share: ropes and boards, lanes and pools. Each line of the standard output names a case and what came of it.
#![tactic(auto)]

mod boards;
mod drops;
mod gates;
mod lanes;
mod pool_cases;
mod pools;
mod rope_cases;
mod ropes;
mod sample;
mod splitters;
mod threads;

use std::io;

fn main(rt: HostRuntime) -> io::Result<()> {
    rope_cases::show_all(&rt, &rt)?;
    pool_cases::show_all(&rt, &rt)
}
