//! From the labels of all headers in two networks, as numbers, to the pairs of those that differ.

ghost use Rattle.std.specs.Prelude.{◌≡◌, ◌<◌, ◌^◌, ℕ, Option, None, IfOk, OnOk};
ghost use Rattle.std.specs.Option.{option_copied};
ghost use Rattle.hdr_bits.specs.Lists.{Extends};
ghost use Rattle.cube_diagram.specs.Functions.{Keeps, count_of, value_at};
ghost use Rattle.net_types.specs.Report.{labels_if_other};
ghost use Rattle.pair_rows.specs.Pairs.{Pair, IsNumberOf};
ghost use Rattle.pair_rows.specs.Functions.{IsFunctionOf};
ghost use Rattle.net_compare.specs.Rows.{HaveOutcomes, AreTold, labels_at};
ghost use Rattle.net_compare.specs.Classes.{AreOfStore, IsClassOf, IsOfStore, differing, differing_at};
ghost use Rattle.net_compare.specs.Differing.{differing_by};

use crate::classes::{Classed, Classes, classed_at};
use cube_diagram::{Diagrams, ValuePair};
use indexmap::{IndexMap, IndexSet};
use net_types::NoMemory;
use pair_rows::{LabelPairs, PairFunction};
use set_walk::LabelNumbers;
use std::alloc::Global;

/// The function that gives a header the two labels that its numbers stand for, where these differ, and nothing where they
/// are equal or where it has no numbers. It stands in a table of its own.
pub(crate) fn pairs_given(
    alloc: Global,
    table: &mut Diagrams,
    classes: &Classes,
    old: &LabelNumbers,
    new: &LabelNumbers,
) -> Result<PairFunction, NoMemory>
    requires old { old.now.function < count_of table.old }
    requires new { new.now.function < count_of table.old }
    requires some_old { HaveOutcomes table.old old.now }
    requires some_new { HaveOutcomes table.old new.now }
    ensures given { IfOk result (IsFunctionOf (labels_at table.old old.now new.now)) }
    ensures kept { Keeps table.old table.new }
{
    let before = classes.classed_all(alloc, &old.labels)?;
    let after = classes.classed_all(alloc, &new.labels)?;
    let old = Numbered {
        function: old.function,
        labels: &before,
    };
    let new = Numbered {
        function: new.function,
        labels: &after,
    };
    let given = pairs_classed(alloc, table, classes, old, new)?;
    Ok(given)
}

// A function that numbers the labels of headers, with what stands at each number.
#[derive(Clone, Copy)]
struct Numbered<'a> {
    function: u32,
    labels: &'a [Option<Classed>],
}

// The same, once the labels have their classes.
fn pairs_classed(
    alloc: Global,
    table: &mut Diagrams,
    classes: &Classes,
    old: Numbered,
    new: Numbered,
) -> Result<PairFunction, NoMemory>
    requires old { old.function < count_of table.old }
    requires new { new.function < count_of table.old }
    requires of_old { AreOfStore classes.now.store old.labels.now }
    requires of_new { AreOfStore classes.now.store new.labels.now }
    ensures given { IfOk result (IsFunctionOf (differing_by table.old old.entry new.entry)) }
    ensures kept { Keeps table.old table.new }
{
    let mut pairs = LabelPairs::new(alloc);
    let function = pair_numbers(alloc, table, classes, old, new, &mut pairs)?;
    let given = in_own_table(alloc, table, function, pairs)?;
    Ok(given)
}

// The function that gives a header the number of its pair of labels, where these differ. The pairs that it has are added.
fn pair_numbers(
    alloc: Global,
    table: &mut Diagrams,
    classes: &Classes,
    old: Numbered,
    new: Numbered,
    pairs: &mut LabelPairs,
) -> Result<u32, NoMemory>
    requires old { old.function < count_of table.old }
    requires new { new.function < count_of table.old }
    requires of_old { AreOfStore classes.now.store old.labels.now }
    requires of_new { AreOfStore classes.now.store new.labels.now }
    ensures below { IfOk result (λ f. f < count_of table.new) }
    ensures exact { IfOk result (λ f. (h : ℕ) → IsNumberOf pairs.new (value_at table.new f h) (differing_by table.old old.entry new.entry h)) }
    ensures kept { Keeps table.old table.new }
{
    let mut numbers = IndexSet::new(alloc);
    let both = table.paired(alloc, old.function, new.function, &mut numbers)?;
    let two = numbers.as_slice();
    let told = pairs_of(alloc, classes, old.labels, new.labels, two, pairs)?;
    let function = table.retold(alloc, both, &told)?;
    Ok(function)
}

/// The function in a table that has nothing else.
pub(crate) fn in_own_table(
    alloc: Global,
    source: &Diagrams,
    function: u32,
    pairs: LabelPairs,
) -> Result<PairFunction, NoMemory>
    requires { function < count_of source.now }
    ensures pairs { IfOk result (λ f. f.pairs ≡ pairs) }
    ensures exact { IfOk result (λ f. (h : ℕ) → value_at f.table f.function h ≡ value_at source.now function h) }
{
    let mut table = Diagrams::new(alloc)?;
    let function = copied(alloc, source, function, &mut table)?;
    Ok(PairFunction {
        table,
        function,
        pairs,
    })
}

// The number that the function has in another table, where it is added.
fn copied(
    alloc: Global,
    source: &Diagrams,
    function: u32,
    table: &mut Diagrams,
) -> Result<u32, NoMemory>
    requires { function < count_of source.now }
    ensures below { IfOk result (λ f. f < count_of table.new) }
    ensures exact { IfOk result (λ f. (h : ℕ) → value_at table.new f h ≡ value_at source.now function h) }
{
    let mut known = IndexMap::new(alloc);
    table.copy_from(source, function, &mut known)
}

/// The function that gives no header a pair.
pub(crate) fn no_pairs(alloc: Global) -> Result<PairFunction, NoMemory>
    ensures { IfOk result (λ f. (g : ℕ → Option Pair) → ((h : ℕ) → h < 2 ^ 112 → g h ≡ None) → IsFunctionOf g f) }
{
    let table = Diagrams::new(alloc)?;
    let function = table.nothing();
    Ok(PairFunction {
        table,
        function,
        pairs: LabelPairs::new(alloc),
    })
}

// For each two numbers of labels the number of the pair of labels, where these differ.
fn pairs_of(
    alloc: Global,
    classes: &Classes,
    old: &[Option<Classed>],
    new: &[Option<Classed>],
    numbers: &[ValuePair],
    pairs: &mut LabelPairs,
) -> Result<Vec<Option<u32>>, NoMemory>
    requires old { AreOfStore classes.now.store old.now }
    requires new { AreOfStore classes.now.store new.now }
    ensures told { IfOk result (λ told. AreTold (differing_at old.now new.now) pairs.new numbers.now told.items) }
{
    let mut told = Vec::with_capacity(alloc, numbers.len())?;
    for two in numbers {
        let before = classed_at(old, two.first);
        let after = classed_at(new, two.second);
        let number = pair_of(alloc, classes, before, after, pairs)?;
        told.push(number)?;
    }
    Ok(told)
}

// The number of the pair of these labels, where both are there and differ.
fn pair_of(
    alloc: Global,
    classes: &Classes,
    old: Option<&Classed>,
    new: Option<&Classed>,
    pairs: &mut LabelPairs,
) -> Result<Option<u32>, NoMemory>
    requires old { IsOfStore classes.now.store (option_copied old) }
    requires new { IsOfStore classes.now.store (option_copied new) }
    ensures number { IfOk result (λ r. IsNumberOf pairs.new r (differing (option_copied old.entry) (option_copied new.entry))) }
    ensures extends { OnOk result (Extends pairs.old pairs.new) }
{
    let (Some(old), Some(new)) = (old, new) else {
        return Ok(None);
    };
    let number = number_of(alloc, classes, old, new, pairs)?;
    Ok(number)
}

// The number of the pair of these labels, if they differ.
fn number_of(
    alloc: Global,
    classes: &Classes,
    old: &Classed,
    new: &Classed,
    pairs: &mut LabelPairs,
) -> Result<Option<u32>, NoMemory>
    requires old { IsClassOf classes.now.store old.now.label old.now.class }
    requires new { IsClassOf classes.now.store new.now.label new.now.class }
    ensures number { IfOk result (λ r. IsNumberOf pairs.new r (labels_if_other old.now.label new.now.label)) }
    ensures extends { OnOk result (Extends pairs.old pairs.new) }
{
    if classes.same(old, new) {
        return Ok(None);
    }
    let position = pairs.number_of(alloc, &old.label, &new.label)?;
    let number = short(position)?;
    Ok(Some(number))
}

// The same number in 32 bits: where they don't hold it there is no memory for a table of so many.
fn short(position: usize) -> Result<u32, NoMemory>
    ensures { IfOk result (λ number. number ≡ position) }
{
    u32::try_from(position).map_err(|_| NoMemory)
}
