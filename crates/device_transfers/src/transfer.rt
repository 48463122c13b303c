//! Transfers, listed from the answers for cubes.

ghost use Rattle.std.specs.Prelude.{OnOk};
ghost use Rattle.net_forms.specs.Worlds.{world_in};
ghost use Rattle.device_transfers.specs.Transfers.{AddsEntries};

use crate::moves::{entry_of, moves_of};
use crate::order::moves_in_order;
use cube_alg::{OnCube, split};
use hdr_bits::{Cube, Header};
use net_types::{List, Move, NoMemory, Place};
use std::alloc::Global;
use transfer_rel::{Prepared, StampMove, Version, moves_on};

/// Headers with which a device does the same.
#[derive(Drop)]
pub struct TransferEntry {
    /// The headers.
    pub cube: Cube,
    /// The moves of each of them. A stamp replaces only fields that the cube fixes.
    pub moves: List<StampMove>,
}

/// What a device does with all headers that arrive at an interface.
#[derive(Drop)]
pub struct Transfer {
    /// The interface.
    pub place: Place,
    /// Disjoint cubes that hold every header, each with its moves.
    pub entries: List<TransferEntry>,
}

impl Transfer {
    ghost use Rattle.std.specs.Prelude.{◌≡◌, All, AllPairs, IfOk};
    ghost use Rattle.std.specs.List.Sorted.{IsStrictlySortedBy};
    ghost use Rattle.net_types.specs.World.{World};
    ghost use Rattle.net_types.specs.Moves.{moves};
    ghost use Rattle.net_forms.specs.Worlds.{world_in};
    ghost use Rattle.transfer_rel.specs.CubeMoves.{SameSet};
    ghost use Rattle.device_transfers.specs.MoveOrder.{move_cmp};
    ghost use Rattle.device_transfers.specs.Transfers.{AreApartEntries, HoldEveryHeader, IsEntry};

    /// Lists what the device does, halving the set of all headers where it looks at an open bit.
    ///
    /// This is for whoever wants the list: that of a long access list has millions of cubes.
    ///
    /// # Errors
    ///
    /// There was no memory.
    pub fn of(
        alloc: Global,
        prepared: &Prepared,
        version: Version,
        place: Place,
    ) -> Result<Transfer, NoMemory>
        ensures place { IfOk result (λ transfer. transfer.place ≡ place) }
        ensures apart { IfOk result (λ transfer. AllPairs AreApartEntries transfer.entries) }
        ensures covers { IfOk result (λ transfer. HoldEveryHeader transfer.entries) }
        ensures each { IfOk result (λ transfer. All (IsEntry (world_in prepared.now version) transfer.place) transfer.entries) }
    {
        let mut entries = List::empty(alloc);
        add_entries(alloc, prepared, version, place, &Cube::all(), &mut entries)?;
        Ok(Transfer { place, entries })
    }

    /// The moves of a header, in order, each once: by kind, then by place, then by the header with which it goes on.
    ///
    /// # Errors
    ///
    /// There was no memory.
    pub fn moves(&self, alloc: Global, h: &Header) -> Result<Vec<Move>, NoMemory>
        // Of whatever network the entries hold, and hold every header.
        ensures moves { IfOk result (λ answer. (w : World) → HoldEveryHeader self.now.entries → All (IsEntry w self.now.place) self.now.entries → SameSet (moves w self.now.place h.now) answer.items) }
        ensures order { IfOk result (λ answer. IsStrictlySortedBy move_cmp answer.items) }
    {
        let Some(entry) = entry_of(self.entries.as_slice(), h.to_bits()) else {
            return Ok(Vec::new(alloc));
        };
        let all = moves_of(alloc, entry.moves.as_slice(), h)?;
        let sorted = moves_in_order(all)?;
        Ok(sorted)
    }
}

// Adds entries for the headers of a cube.
fn add_entries(
    alloc: Global,
    prepared: &Prepared,
    version: Version,
    place: Place,
    cube: &Cube,
    entries: &mut List<TransferEntry>,
) -> Result<(), NoMemory>
    ensures { OnOk result (AddsEntries (world_in prepared.now version) place cube.now entries.old entries.new) }
{
    match moves_on(alloc, prepared, version, place, cube)? {
        OnCube::All { answer } => {
            entries.push(TransferEntry {
                cube: *cube,
                moves: answer,
            })?;
            Ok(())
        }
        OnCube::Divides { bit } => {
            let (low, high) = split(cube, bit);
            add_entries(alloc, prepared, version, place, &low, entries)?;
            add_entries(alloc, prepared, version, place, &high, entries)?;
            Ok(())
        }
    }
}
