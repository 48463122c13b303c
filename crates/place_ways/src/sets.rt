//! Sets of headers, as functions that give a value to their members.

ghost use Rattle.std.specs.Prelude.{◌≡◌, ◌<◌, Some, IfOk};
ghost use Rattle.hdr_bits.specs.HeaderBits.{number};
ghost use Rattle.cube_alg.specs.Stamps.{applied};
ghost use Rattle.cube_diagram.specs.Functions.{Keeps, count_of, value_at};
ghost use Rattle.set_walk.specs.Sets.{InSet, IsSet};

use cube_alg::Stamp;
use cube_diagram::Diagrams;
use net_types::NoMemory;
pub(crate) use set_walk::sets::{before_stamp, both, either, without};
use std::alloc::Global;

/// The given headers to which the function gives this value.
pub(crate) fn where_value(
    table: &mut Diagrams,
    function: u32,
    value: u32,
    given: u32,
) -> Result<u32, NoMemory>
    requires function { function < count_of table.old }
    requires given { given < count_of table.old }
    ensures set { IfOk result (λ r. IsSet table.new r (λ h. InSet table.old given h × (value_at table.old function (number h) ≡ Some value))) }
    ensures kept { Keeps table.old table.new }
{
    let marked = table.with_value(function, value)?;
    let set = both(table, given, marked)?;
    Ok(set)
}

/// The given headers that the list passes. A list may be long and the given headers few, so what it says of others is left out
/// before those that it passes are marked.
pub(crate) fn where_passed(table: &mut Diagrams, list: u32, given: u32) -> Result<u32, NoMemory>
    requires list { list < count_of table.old }
    requires given { given < count_of table.old }
    ensures set { IfOk result (λ r. IsSet table.new r (λ h. InSet table.old given h × (value_at table.old list (number h) ≡ Some 1))) }
    ensures kept { Keeps table.old table.new }
{
    // No list, and one that passes everything.
    if list == table.everything() {
        return Ok(given);
    }
    let part = table.within(list, given)?;
    let set = table.with_value(part, 1)?;
    Ok(set)
}

/// The given headers that the list passes once the stamp was applied.
pub(crate) fn where_passed_after(
    alloc: Global,
    table: &mut Diagrams,
    list: u32,
    stamp: &Stamp,
    given: u32,
) -> Result<u32, NoMemory>
    requires list { list < count_of table.old }
    requires given { given < count_of table.old }
    ensures set { IfOk result (λ r. IsSet table.new r (λ h. InSet table.old given h × (value_at table.old list (number (applied stamp.now h)) ≡ Some 1))) }
    ensures kept { Keeps table.old table.new }
{
    if *stamp == Stamp::none() {
        let set = where_passed(table, list, given)?;
        return Ok(set);
    }
    let marked = table.with_value(list, 1)?;
    let before = before_stamp(alloc, table, marked, stamp)?;
    let set = both(table, given, before)?;
    Ok(set)
}
