//! The facts that hold of headers as numbers: one function that gives each header the number of its facts.
//!
//! Each half of the facts is told by a function of its own, and then the pairs of their numbers are numbered. So the work goes
//! with the diagrams of these functions, and not with the parts into which each single fact cuts the headers.

ghost use Rattle.std.specs.Prelude.{◌≡◌, ◌<◌, ℕ, [], ◌∷◌, ◌++◌, Some, IfOk, OnOk, slice_get};
ghost use Rattle.cube_diagram.specs.declared.paired.ValuePair.{ValuePair};
ghost use Rattle.cube_diagram.specs.Functions.{Keeps, count_of};
ghost use Rattle.incr_review.specs.Facts.{AreFactsBelow, StandOnce};
ghost use Rattle.incr_review.specs.FactNumbers.{AreFactNumbers, TellsBoth, facts_at, facts_by, facts_of_pair};

use crate::facts::{FactSet, WalkFact};
use crate::set_numbers::on_set;
use cube_diagram::{Diagrams, ValuePair};
use indexmap::IndexSet;
use net_types::NoMemory;
use std::alloc::Global;

/// Facts that hold of a header, in the order in which they were given.
#[derive(Drop)]
pub(crate) struct FactList {
    pub(crate) facts: Vec<WalkFact>,
}

/// The facts of headers: the number of a function of a table that gives each header of which a fact holds the number of its
/// facts, and no other header one; and the facts at each number.
pub(crate) struct FactNumbers {
    pub(crate) function: u32,
    pub(crate) lists: Vec<FactList>,
}

impl Drop for FactNumbers {
    fn drop(self) {
        let FactNumbers {
            function: _,
            lists: _,
        } = self;
    }
}

/// The numbers of headers by these facts, each of which stands once: two headers have one number exactly where the same facts
/// hold of them.
pub(crate) fn fact_numbers(
    alloc: Global,
    table: &mut Diagrams,
    facts: &[FactSet],
) -> Result<FactNumbers, NoMemory>
    requires facts { AreFactsBelow table.old facts.now }
    requires once { StandOnce facts.now }
    ensures numbers { IfOk result (AreFactNumbers table.new facts.now) }
    ensures kept { Keeps table.old table.new }
{
    let Some(first) = facts.first() else {
        return Ok(no_numbers(alloc, table));
    };
    if facts.len() == 1 {
        return one_fact(alloc, table, *first);
    }
    let (left, right) = facts.split_at(facts.len() / 2);
    let a = fact_numbers(alloc, table, left)?;
    let b = fact_numbers(alloc, table, right)?;
    both_told(alloc, table, &a, &b)
}

// Those of no fact.
fn no_numbers(alloc: Global, table: &Diagrams) -> FactNumbers
    ensures { AreFactNumbers table.now [] result }
{
    FactNumbers {
        function: table.nothing(),
        lists: Vec::new(alloc),
    }
}

fn one_fact(alloc: Global, table: &mut Diagrams, fact: FactSet) -> Result<FactNumbers, NoMemory>
    requires { fact.headers < count_of table.old }
    ensures numbers { IfOk result (AreFactNumbers table.new (fact ∷ [])) }
    ensures kept { Keeps table.old table.new }
{
    let function = on_set(table, fact.headers, 0)?;
    let lists = one_list(alloc, fact.fact)?;
    Ok(FactNumbers { function, lists })
}

fn one_list(alloc: Global, fact: WalkFact) -> Result<Vec<FactList>, NoMemory>
    ensures { IfOk result (λ r. facts_at r.items 0 ≡ fact ∷ []) }
{
    let mut facts = Vec::new(alloc);
    facts.push(fact)?;
    let mut lists = Vec::new(alloc);
    lists.push(FactList { facts })?;
    Ok(lists)
}

// What the two tell, as one.
fn both_told(
    alloc: Global,
    table: &mut Diagrams,
    a: &FactNumbers,
    b: &FactNumbers,
) -> Result<FactNumbers, NoMemory>
    requires first { a.now.function < count_of table.old }
    requires second { b.now.function < count_of table.old }
    ensures told { IfOk result (TellsBoth table.old a.now b.now table.new) }
    ensures kept { Keeps table.old table.new }
{
    let mut pairs = IndexSet::new(alloc);
    let function = table.paired(alloc, a.function, b.function, &mut pairs)?;
    let lists = lists_by(alloc, &a.lists, &b.lists, pairs.as_slice())?;
    Ok(FactNumbers { function, lists })
}

// The facts of each pair of numbers, at its position.
fn lists_by(
    alloc: Global,
    first: &[FactList],
    second: &[FactList],
    pairs: &[ValuePair],
) -> Result<Vec<FactList>, NoMemory>
    ensures { IfOk result (λ r. (n : ℕ) (pair : ValuePair) → slice_get pairs.now n ≡ Some pair → facts_at r.items n ≡ facts_of_pair first.now second.now pair) }
{
    let mut lists = Vec::new(alloc);
    for pair in pairs {
        let list = list_by(alloc, first, second, *pair)?;
        lists.push(list)?;
    }
    Ok(lists)
}

fn list_by(
    alloc: Global,
    first: &[FactList],
    second: &[FactList],
    pair: ValuePair,
) -> Result<FactList, NoMemory>
    ensures { IfOk result (λ r. r.facts.items ≡ facts_of_pair first.now second.now pair) }
{
    let mut facts = Vec::new(alloc);
    add_facts(first, pair.first, &mut facts)?;
    add_facts(second, pair.second, &mut facts)?;
    Ok(FactList { facts })
}

// Adds the facts of a header that has this number; none where it has none.
fn add_facts(
    lists: &[FactList],
    number: Option<u32>,
    facts: &mut Vec<WalkFact>,
) -> Result<(), NoMemory>
    ensures { OnOk result (facts.new.items ≡ facts.old.items ++ facts_by lists.now number) }
{
    match number {
        None => Ok(()),
        Some(number) => add_facts_at(lists, number as usize, facts),
    }
}

/// Adds the facts that stand at the number; none where the list ends before it.
pub(crate) fn add_facts_at(
    lists: &[FactList],
    index: usize,
    facts: &mut Vec<WalkFact>,
) -> Result<(), NoMemory>
    ensures { OnOk result (facts.new.items ≡ facts.old.items ++ facts_at lists.now index) }
{
    if index >= lists.len() {
        return Ok(());
    }
    facts.extend_from_slice(&lists[index].facts)?;
    Ok(())
}
