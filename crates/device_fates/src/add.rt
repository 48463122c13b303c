//! A device as one function in the table of diagrams: it gives each header the number of the fate of its destination.

ghost use Rattle.std.specs.Prelude.{◌<◌, IfOk};
ghost use Rattle.net_types.specs.declared.config.Config.{Config};
ghost use Rattle.hdr_bits.specs.declared.header.Header.{Header};
ghost use Rattle.hdr_bits.specs.HeaderBits.{number, IsHeader};
ghost use Rattle.cube_diagram.specs.Functions.{Keeps, count_of, value_at};
ghost use Rattle.hdr_bits.specs.Lists.{Extends};
ghost use Rattle.device_fates.specs.Fates.{HasFate};

use crate::fates::Fates;
use crate::pieces::pieces_of;
use cube_diagram::Diagrams;
use net_types::{Config, NoMemory};
use std::alloc::Global;

/// The number of the function that gives each header the number of the fate of its destination.
///
/// Without memory functions and fates may have been added, but none that was there is changed.
///
/// # Errors
///
/// There was no memory, or there are 2 to the 32 fates, interfaces or prefixes or more.
pub fn add_device(
    alloc: Global,
    diagrams: &mut Diagrams,
    fates: &mut Fates,
    config: &Config,
) -> Result<u32, NoMemory>
    ensures below { IfOk result (λ r. r < count_of diagrams.new) }
    ensures kept { Keeps diagrams.old diagrams.new }
    ensures grows { Extends fates.old fates.new }
    ensures exact { IfOk result (λ r. (h : Header) → IsHeader h → HasFate config.now fates.new (value_at diagrams.new r (number h)) h.dst) }
{
    let pieces = pieces_of(alloc, fates, config)?;
    let function = diagrams.prefix_match(&pieces)?;
    Ok(function)
}
