//! How a way is added to those that there are.

ghost use Rattle.std.specs.Prelude.{◌<◌, OnOk};
ghost use Rattle.cube_diagram.specs.Functions.{Keeps, count_of};
ghost use Rattle.set_walk.specs.Ways.{IsStamp, OfStamp, move_of};
ghost use Rattle.place_ways.specs.Adding.{AddsWays, AreGiven, Makes};

use crate::sets::either;
use cube_diagram::Diagrams;
use net_types::NoMemory;
use set_walk::{Step, Steps, Way};

/// Adds a way of its own for the headers of this set, if there are any.
pub(crate) fn add_way(
    table: &Diagrams,
    ways: &mut Vec<Way>,
    step: Step,
    headers: u32,
) -> Result<(), NoMemory>
    requires headers { headers < count_of table.now }
    requires fits { OfStamp IsStamp step }
    requires ways { AreGiven table.now ways.old.items }
    ensures { OnOk result (AddsWays table.now table.now (Makes table.now headers (λ h. move_of h step)) ways.old.items ways.new.items) }
{
    if table.is_nothing(headers) {
        return Ok(());
    }
    ways.push(Way { step, headers })?;
    Ok(())
}

/// Adds the headers of this set to those of the way with this step, or a way where none is known by its step.
pub(crate) fn join_way(
    table: &mut Diagrams,
    ways: &mut Steps,
    step: Step,
    headers: u32,
) -> Result<(), NoMemory>
    requires headers { headers < count_of table.old }
    requires fits { OfStamp IsStamp step }
    requires ways { AreGiven table.old ways.old.ways.items }
    ensures added { OnOk result (AddsWays table.old table.new (Makes table.old headers (λ h. move_of h step)) ways.old.ways.items ways.new.ways.items) }
    ensures kept { Keeps table.old table.new }
{
    if table.is_nothing(headers) {
        return Ok(());
    }
    let Some(position) = ways.position(&step) else {
        ways.push(Way { step, headers })?;
        return Ok(());
    };
    let all = either(table, ways.ways[position].headers, headers)?;
    ways.ways[position] = Way { step, headers: all };
    Ok(())
}
