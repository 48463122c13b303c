//! The headers of a set, in parts by what walks tell of them.

ghost use Rattle.std.specs.Prelude.{◌≡◌, ◌<◌, List, IfOk, OnOk};
ghost use Rattle.std.specs.List.{AllZip};
ghost use Rattle.cube_diagram.specs.Functions.{Keeps, count_of};
ghost use Rattle.incr_review.specs.declared.facts.FactSet.{FactSet};
ghost use Rattle.incr_review.specs.FactNumbers.{AreFactNumbers};
ghost use Rattle.incr_review.specs.Facts.{AreFactsBelow, StandOnce};
ghost use Rattle.incr_review.specs.Parts.{AddsPart, AreParts, IsPartBy};

use crate::facts::{FactSet, WalkFact};
use crate::numbers::{FactList, FactNumbers, add_facts_at, fact_numbers};
use cube_diagram::{Diagrams, ValueSet};
use net_types::NoMemory;
use set_walk::sets::without;
use std::alloc::Global;

/// Headers of which the same facts hold.
#[derive(Drop)]
pub(crate) struct Part {
    /// The set of the headers, not empty.
    pub(crate) headers: u32,
    pub(crate) facts: Vec<WalkFact>,
}

/// The parts of a set of headers by facts, each of which stands once: each header of the set is in one part, which has exactly the
/// facts that hold of it, and no two parts have the same facts.
pub(crate) fn parts_by(
    alloc: Global,
    table: &mut Diagrams,
    domain: u32,
    facts: &[FactSet],
) -> Result<Vec<Part>, NoMemory>
    requires domain { domain < count_of table.old }
    requires facts { AreFactsBelow table.old facts.now }
    requires once { StandOnce facts.now }
    ensures parts { IfOk result (λ r. AreParts table.new domain facts.now r.items) }
    ensures kept { Keeps table.old table.new }
{
    let numbers = fact_numbers(alloc, table, facts)?;
    parts_of(alloc, table, domain, &numbers)
}

// The parts of the set by the numbers of facts.
fn parts_of(
    alloc: Global,
    table: &mut Diagrams,
    domain: u32,
    numbers: &FactNumbers,
) -> Result<Vec<Part>, NoMemory>
    requires domain { domain < count_of table.old }
    requires numbers { numbers.now.function < count_of table.old }
    ensures parts { IfOk result (λ r. (facts : List FactSet) → AreFactsBelow table.old facts → AreFactNumbers table.old facts numbers.now → AreParts table.new domain facts r.items) }
    ensures kept { Keeps table.old table.new }
{
    let sets = table.sets_by_value(alloc, numbers.function, domain)?;
    let rest = without(table, domain, numbers.function)?;
    let mut parts = numbered_parts(alloc, &numbers.lists, &sets)?;
    // No fact holds of these.
    add_part(table, rest, Vec::new(alloc), &mut parts)?;
    Ok(parts)
}

// The headers of each number, with its facts.
fn numbered_parts(
    alloc: Global,
    lists: &[FactList],
    sets: &[ValueSet],
) -> Result<Vec<Part>, NoMemory>
    ensures { IfOk result (λ r. AllZip (IsPartBy lists.now) sets.now r.items) }
{
    let mut parts = Vec::new(alloc);
    for one in sets {
        let part = part_by(alloc, lists, *one)?;
        parts.push(part)?;
    }
    Ok(parts)
}

fn part_by(alloc: Global, lists: &[FactList], one: ValueSet) -> Result<Part, NoMemory>
    ensures { IfOk result (IsPartBy lists.now one) }
{
    let mut facts = Vec::new(alloc);
    add_facts_at(lists, one.value as usize, &mut facts)?;
    Ok(Part {
        headers: one.set,
        facts,
    })
}

// Adds these headers as a part, if there are some.
fn add_part(
    table: &Diagrams,
    headers: u32,
    facts: Vec<WalkFact>,
    parts: &mut Vec<Part>,
) -> Result<(), NoMemory>
    requires { headers < count_of table.now }
    ensures { OnOk result (AddsPart table.now headers facts.items parts.old.items parts.new.items) }
{
    if table.is_nothing(headers) {
        return Ok(());
    }
    parts.push(Part { headers, facts })?;
    Ok(())
}
