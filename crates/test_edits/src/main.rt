//! Networks that change: devices that are replaced, reviews that are edited, and change windows. Each line of the standard output names a
//! case and what came of it; what it must be follows from the rules.
//!
//! The words are those of `live`: how many networks, and how many changes of each.
#![tactic(auto)]

mod devices;
mod draws;
mod live;
mod many;
mod networks;
mod plan;
mod same;
mod sets;
mod small;
mod texts;
mod walks;
mod windows;

use std::io;

fn main(rt: HostRuntime) -> io::Result<()> {
    live::show_all(&rt)?;
    small::show(&rt)?;
    many::show(&rt)?;
    windows::show(&rt, &rt)
}
