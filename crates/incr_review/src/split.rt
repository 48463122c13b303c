//! The regions that an edit touches, cut in two: by the headers whose moves it may change, and by the others.

ghost use Rattle.std.specs.Prelude.{◌≡◌, ◌<◌, IfOk, OnOk, filter};
ghost use Rattle.cube_diagram.specs.Functions.{Keeps, count_of};
ghost use Rattle.set_walk.specs.Sets.{InSet};
ghost use Rattle.incr_review.specs.Again.{leaves};
ghost use Rattle.incr_review.specs.Sections.{AreBelow};
ghost use Rattle.incr_review.specs.Split.{AddsPiece, ArePieces, PutsPiece, is_in, is_out, with_headers};

use crate::regions::{Region, stays};
use cube_diagram::Diagrams;
use net_types::{Duplicate, NoMemory};
use set_walk::sets::{both, without};
use std::alloc::Global;

/// Regions with some of their headers each.
#[derive(Drop)]
pub(crate) struct Split {
    /// With the headers that aren't in the set.
    pub(crate) outside: Vec<Region>,
    /// With those that are.
    pub(crate) inside: Vec<Region>,
}

/// The regions that visit the device, cut by the set.
pub(crate) fn split_leaving(
    alloc: Global,
    table: &mut Diagrams,
    regions: &[Region],
    device: u32,
    set: u32,
) -> Result<Split, NoMemory>
    requires below { AreBelow table.old regions.now }
    requires set { set < count_of table.old }
    ensures outside { IfOk result (λ r. ArePieces table.old (filter (leaves device) regions.now) (is_out table.old set) table.new r.outside.items) }
    ensures inside { IfOk result (λ r. ArePieces table.old (filter (leaves device) regions.now) (is_in table.old set) table.new r.inside.items) }
    ensures kept { Keeps table.old table.new }
{
    let mut split = Split {
        outside: Vec::new(alloc),
        inside: Vec::new(alloc),
    };
    for region in regions {
        if !stays(region, device) {
            split_region(alloc, table, region, set, &mut split)?;
        }
    }
    Ok(split)
}

fn split_region(
    alloc: Global,
    table: &mut Diagrams,
    region: &Region,
    set: u32,
    split: &mut Split,
) -> Result<(), NoMemory>
    requires region { region.now.headers < count_of table.old }
    requires set { set < count_of table.old }
    ensures outside { OnOk result (PutsPiece table.old region.now (λ h. InSet table.old set h → ⊥) table.new split.old.outside.items split.new.outside.items) }
    ensures inside { OnOk result (PutsPiece table.old region.now (InSet table.old set) table.new split.old.inside.items split.new.inside.items) }
    ensures kept { Keeps table.old table.new }
{
    let outside = without(table, region.headers, set)?;
    let inside = both(table, region.headers, set)?;
    add_piece(alloc, table, region, outside, &mut split.outside)?;
    add_piece(alloc, table, region, inside, &mut split.inside)?;
    Ok(())
}

// The region with these headers, if there are some.
fn add_piece(
    alloc: Global,
    table: &Diagrams,
    region: &Region,
    headers: u32,
    pieces: &mut Vec<Region>,
) -> Result<(), NoMemory>
    requires { headers < count_of table.now }
    ensures { OnOk result (AddsPiece table.now region.now headers pieces.old.items pieces.new.items) }
{
    if table.is_nothing(headers) {
        return Ok(());
    }
    let mut piece = region.copy(alloc)?;
    piece.headers = headers;
    pieces.push(piece)?;
    Ok(())
}
