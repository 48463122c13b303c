//! Parts of devices, then small networks: what devices do with headers, the labels of headers and the regions round them, where headers end and whether
//! they loop, what is alike in two networks, and which devices headers visit. What each case must give follows from the rules, and
//! stands in the file `stdout` beside this folder.
#![tactic(auto)]

mod alike;
mod asking;
mod cases;
mod counting;
mod destinations;
mod devices;
mod devices_alone;
mod drawn;
mod edges;
mod ends;
mod labels;
mod lists;
mod moves;
mod networks;
mod read;
mod regions;
mod routes;
mod tables;
mod texts;
mod translation;
mod visits;

use std::io;

fn main(rt: HostRuntime) -> io::Result<()> {
    devices_alone::show(&rt)?;
    moves::show(&rt)?;
    labels::show(&rt)?;
    ends::show(&rt)?;
    alike::show(&rt)?;
    visits::show(&rt)
}
