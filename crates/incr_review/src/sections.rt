//! From the regions of a review to the report.

ghost use Rattle.std.specs.Prelude.{◌≡◌, ◌<◌, ◌+◌, ℕ, [], IfOk, OnOk};
ghost use Rattle.cube_diagram.specs.Functions.{Functions, Keeps, count_of, value_at};
ghost use Rattle.net_types.specs.World.{World};
ghost use Rattle.net_types.specs.Report.{IsReport};
ghost use Rattle.incr_review.specs.Regions.{AreReviewed};
ghost use Rattle.incr_review.specs.Reviews.{HasRowsOf};
ghost use Rattle.incr_review.specs.Sections.{AddsPair, AreBelow, AreDiffering, ArePairsOf, AreRowsAt, IsCountAt, IsNumbered, regions_at};

use crate::regions::Region;
use crate::set_numbers::on_set;
use cube_diagram::Diagrams;
use indexmap::IndexMap;
use net_types::{List, NoMemory, Place, Row, Section};
use pair_rows::{LabelPairs, PairFunction, rows_of_function};
use std::alloc::Global;

/// The sections of the ingresses, in their order.
pub(crate) fn sections_of(
    alloc: Global,
    table: &Diagrams,
    regions: &[Region],
    ingress: &[Place],
) -> Result<Vec<Section>, NoMemory>
    requires { AreBelow table.now regions.now }
    ensures { IfOk result (λ r. (old new : World) (t : ℕ) → AreReviewed old new t ingress.now table.now regions.now → IsReport ingress.now old new t r.items) }
{
    let differing = differing_regions(alloc, regions)?;
    let mut sections = Vec::with_capacity(alloc, ingress.len())?;
    for (slot, place) in ingress.iter().enumerate() {
        let rows = rows_at(alloc, table, &differing, slot)?;
        sections.push(Section {
            place: *place,
            rows: List::new(rows),
        })?;
    }
    Ok(sections)
}

/// How many rows the sections of the ingresses have. They are counted by the diagrams of their functions, and not listed. There is
/// no number where 64 bits don't hold it.
pub(crate) fn rows_of_sections(
    alloc: Global,
    table: &Diagrams,
    regions: &[Region],
    ingress: &[Place],
) -> Result<u64, NoMemory>
    requires { AreBelow table.now regions.now }
    ensures { IfOk result (λ n. (old new : World) (t : ℕ) → AreReviewed old new t ingress.now table.now regions.now → HasRowsOf ingress.now old new t n) }
{
    let differing = differing_regions(alloc, regions)?;
    let mut count = 0;
    for slot in 0..ingress.len() {
        let rows = row_count_at(alloc, table, &differing, slot)?;
        count = sum(count, rows)?;
    }
    Ok(count)
}

// The sum, where 64 bits hold it.
fn sum(count: u64, rows: u128) -> Result<u64, NoMemory>
    ensures { IfOk result (λ n. n ≡ count + rows) }
{
    let rows = u64::try_from(rows).map_err(|_| NoMemory)?;
    let Some(sum) = u64::checked_add(count, rows) else {
        return Err(NoMemory);
    };
    Ok(sum)
}

// The canonical rows of one ingress.
fn rows_at(
    alloc: Global,
    table: &Diagrams,
    regions: &[&Region],
    slot: usize,
) -> Result<Vec<Row>, NoMemory>
    requires { AreBelow table.now (regions_at regions.now) }
    ensures { IfOk result (λ rows. AreRowsAt table.now slot (regions_at regions.now) rows.items) }
{
    let given = pairs_of(alloc, table, regions, slot)?;
    rows_of_function(alloc, &given)
}

// How many these are.
fn row_count_at(
    alloc: Global,
    table: &Diagrams,
    regions: &[&Region],
    slot: usize,
) -> Result<u128, NoMemory>
    requires { AreBelow table.now (regions_at regions.now) }
    ensures { IfOk result (IsCountAt table.now slot (regions_at regions.now)) }
{
    let given = pairs_of(alloc, table, regions, slot)?;
    given.table.row_count(alloc, given.function)
}

// Those of the regions whose two labels differ, which are few after most edits: so each ingress looks at these alone.
fn differing_regions(alloc: Global, regions: &[Region]) -> Result<Vec<&Region>, NoMemory>
    ensures { IfOk result (λ r. AreDiffering regions.now (regions_at r.items)) }
{
    let mut differing = Vec::new(alloc);
    for region in regions {
        if !region.old.same(&region.new) {
            differing.push(region)?;
        }
    }
    Ok(differing)
}

// The pairs of the headers of these regions at one ingress whose two labels differ.
fn pairs_of(
    alloc: Global,
    table: &Diagrams,
    regions: &[&Region],
    slot: usize,
) -> Result<PairFunction, NoMemory>
    requires { AreBelow table.now (regions_at regions.now) }
    ensures { IfOk result (ArePairsOf table.now slot (regions_at regions.now)) }
{
    let mut given = no_pairs(alloc)?;
    for region in regions {
        if region.slot as usize == slot {
            add_pair(alloc, table, *region, &mut given)?;
        }
    }
    Ok(given)
}

fn no_pairs(alloc: Global) -> Result<PairFunction, NoMemory>
    ensures { IfOk result (λ r. (fs : Functions) (slot : ℕ) → ArePairsOf fs slot [] r) }
{
    let table = Diagrams::new(alloc)?;
    let function = table.nothing();
    Ok(PairFunction {
        table,
        function,
        pairs: LabelPairs::new(alloc),
    })
}

// With the region's pair on its headers, where its labels differ.
fn add_pair(
    alloc: Global,
    source: &Diagrams,
    region: &Region,
    given: &mut PairFunction,
) -> Result<(), NoMemory>
    requires { region.now.headers < count_of source.now }
    ensures { OnOk result (AddsPair source.now region.now given.old given.new) }
{
    if region.old.same(&region.new) {
        return Ok(());
    }
    let set = copied(alloc, source, region.headers, &mut given.table)?;
    let position = given.pairs.number_of(alloc, &region.old, &region.new)?;
    let number = short(position)?;
    let function = numbered(&mut given.table, given.function, set, number)?;
    given.function = function;
    Ok(())
}

// The set, as one of this table.
fn copied(alloc: Global, source: &Diagrams, set: u32, table: &mut Diagrams) -> Result<u32, NoMemory>
    requires { set < count_of source.now }
    ensures below { IfOk result (λ r. r < count_of table.new) }
    ensures exact { IfOk result (λ r. (h : ℕ) → value_at table.new r h ≡ value_at source.now set h) }
    ensures kept { Keeps table.old table.new }
{
    let mut known = IndexMap::new(alloc);
    table.copy_from(source, set, &mut known)
}

// The function that gives the headers of the set that have no number this one.
fn numbered(table: &mut Diagrams, function: u32, set: u32, number: u32) -> Result<u32, NoMemory>
    requires function { function < count_of table.old }
    requires set { set < count_of table.old }
    ensures below { IfOk result (λ r. r < count_of table.new) }
    ensures exact { IfOk result (IsNumbered table.old function set number table.new) }
    ensures kept { Keeps table.old table.new }
{
    let inside = on_set(table, set, number)?;
    table.first_of(&[function, inside])
}

// The same number in 32 bits: where they don't hold it there is no memory for a table of so many.
fn short(position: usize) -> Result<u32, NoMemory>
    ensures { IfOk result (λ number. number ≡ position) }
{
    u32::try_from(position).map_err(|_| NoMemory)
}
