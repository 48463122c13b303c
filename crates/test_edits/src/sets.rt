//! Sets of headers of two tables. A number that is none of a table's is no set.

use cube_diagram::Diagrams;
use indexmap::IndexMap;
use net_types::NoMemory;
use set_walk::sets::{either, without};
use set_walk::{Step, Way, same_step};
use std::alloc::Global;

/// Whether the sets have the same headers, each in its table. The second one is copied to the first table.
pub(crate) fn same_sets(
    alloc: Global,
    table: &mut Diagrams,
    set: u32,
    other_table: &Diagrams,
    other: u32,
) -> Result<bool, NoMemory> {
    if other as usize >= other_table.count() {
        return Ok(false);
    }
    let mut known = IndexMap::new(alloc);
    let copy = table.copy_from(other_table, other, &mut known)?;
    Ok(is_part(table, set, copy)? && is_part(table, copy, set)?)
}

// Whether each header of the first set is in the second.
fn is_part(table: &mut Diagrams, a: u32, b: u32) -> Result<bool, NoMemory> {
    let count = table.count();
    if a as usize >= count || b as usize >= count {
        return Ok(false);
    }
    let rest = without(table, a, b)?;
    Ok(table.is_nothing(rest))
}

/// The headers that make the step by these ways.
pub(crate) fn headers_of(table: &mut Diagrams, ways: &[Way], step: &Step) -> Result<u32, NoMemory> {
    let mut all = table.nothing();
    for way in ways {
        if same_step(&way.step, step) {
            all = joined(table, all, way.headers)?;
        }
    }
    Ok(all)
}

fn joined(table: &mut Diagrams, a: u32, b: u32) -> Result<u32, NoMemory> {
    let count = table.count();
    if a as usize >= count || b as usize >= count {
        return Ok(a);
    }
    either(table, a, b)
}
