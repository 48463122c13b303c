//! The report on two networks whose ways are known, by one who walks alone: in the table itself, of which no copy is made.

ghost use Rattle.std.specs.Prelude.{◌≡◌, ◌<◌, ◌≤◌, ◌^◌, IfOk, length};
ghost use Rattle.cube_diagram.specs.Functions.{Keeps};
ghost use Rattle.net_types.specs.Report.{IsReport, IsSection};
ghost use Rattle.net_view.specs.Borrowed.{world_of};
ghost use Rattle.set_walk.specs.Nets.{IsNet};
ghost use Rattle.set_walk.specs.Scopes.{AreAlikeBeyond};
ghost use Rattle.net_compare.specs.Walkable.{AreWalkable};

use crate::classes::Classes;
use crate::compared::Compared;
use crate::ingress::pairs_at;
use crate::known::NetPair;
use cube_diagram::Diagrams;
use difference_reach::Reach;
use net_types::{List, NoMemory, Place, Section};
use pair_rows::rows_of_function;
use std::alloc::Global;

/// The same report as that of `compare_known`. Functions are added to the table, but none that was there is changed.
pub(crate) fn compare_alone(
    alloc: Global,
    table: &mut Diagrams,
    nets: NetPair,
    ingress: &[Place],
    ttl: u8,
) -> Result<Vec<Section>, NoMemory>
    requires ttl { 1 ≤ ttl }
    requires few { length ingress.now < 2 ^ 32 }
    requires old { IsNet table.old nets.old.now }
    requires new { IsNet table.old nets.new.now }
    requires scope { nets.old.now.scope ≡ nets.new.now.scope }
    requires lists { nets.old.now.lists.now ≡ nets.new.now.lists.now }
    requires beyond { AreAlikeBeyond (world_of nets.old.now.world) (world_of nets.new.now.world) table.old nets.old.now.scope }
    ensures report { IfOk result (λ sections. IsReport ingress.now (world_of nets.entry.old.now.world) (world_of nets.entry.new.now.world) ttl sections.items) }
    ensures kept { Keeps table.old table.new }
{
    let reach = Reach::of(alloc, table, nets.old, nets.new)?;
    let classes = Classes::new(alloc);
    let compared = Compared {
        old: nets.old,
        new: nets.new,
        reach: &reach,
        classes: &classes,
        ingress,
        ttl,
    };
    sections_in(alloc, table, &compared)
}

// The sections of the ingresses, in their order.
fn sections_in(
    alloc: Global,
    table: &mut Diagrams,
    compared: &Compared,
) -> Result<Vec<Section>, NoMemory>
    requires { AreWalkable table.old compared.now }
    ensures report { IfOk result (λ sections. IsReport compared.now.ingress.now (world_of compared.now.old.now.world) (world_of compared.now.new.now.world) compared.now.ttl sections.items) }
    ensures kept { Keeps table.old table.new }
{
    let mut sections = Vec::new(alloc);
    for place in compared.ingress {
        let section = section_at(alloc, table, compared, *place)?;
        sections.push(section)?;
    }
    Ok(sections)
}

// The section of an ingress.
fn section_at(
    alloc: Global,
    table: &mut Diagrams,
    compared: &Compared,
    place: Place,
) -> Result<Section, NoMemory>
    requires { AreWalkable table.old compared.now }
    ensures section { IfOk result (IsSection (world_of compared.now.old.now.world) (world_of compared.now.new.now.world) compared.now.ttl place) }
    ensures kept { Keeps table.old table.new }
{
    let given = pairs_at(alloc, table, compared, place)?;
    let rows = rows_of_function(alloc, &given)?;
    Ok(Section {
        place,
        rows: List::new(rows),
    })
}
