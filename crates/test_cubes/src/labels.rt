//! Labels by numbers.

use net_types::{Duplicate, Label, NoMemory, Outcome, Place};
use std::alloc::Global;

/// The label of a number, each another one: a drop, an expiry, and then in turn an end at a device, a pair of exits of
/// which only the second differs, and an exit with another destination.
pub(crate) fn label(alloc: Global, number: u32) -> Result<Label, NoMemory> {
    let mut outcomes = Vec::new(alloc);
    if number >= 2 && number % 3 == 1 {
        outcomes.push(exit(0, None))?;
    }
    outcomes.push(last_outcome(number))?;
    Label::of(outcomes)
}

/// Whether the copies of the first so many labels are equal to them.
pub(crate) fn copies_are_equal(alloc: Global, count: u32) -> Result<bool, NoMemory> {
    let mut equal = true;
    for number in 0..count {
        let one = label(alloc, number)?;
        equal &= one.same(&one.copy(alloc)?);
    }
    Ok(equal)
}

fn last_outcome(number: u32) -> Outcome {
    match number {
        0 => Outcome::Dropped,
        1 => Outcome::Expired,
        _ => match number % 3 {
            0 => Outcome::Local {
                place: place(number),
            },
            1 => exit(number, None),
            _ => exit(0, Some(number)),
        },
    }
}

fn exit(interface: u32, dst: Option<u32>) -> Outcome {
    Outcome::Exit {
        place: place(interface),
        src: None,
        dst,
        sport: None,
        dport: None,
    }
}

fn place(interface: u32) -> Place {
    Place {
        device: 0,
        interface,
    }
}
