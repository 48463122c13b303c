//! The pieces that a device's function is made of, in order of priority: what is dropped, the own addresses, what is sent on.
//! The value of each is the number of a fate.

ghost use Rattle.std.specs.Prelude.{◌≡◌, ◌<◌, ◌^◌, ◌/◌, ℕ, Some, None, IfOk, OnOk, if◌then◌else◌};
ghost use Rattle.std.specs.Option.{option_map, option_or};
ghost use Rattle.hdr_bits.specs.declared.header.Header.{Header};
ghost use Rattle.hdr_bits.specs.HeaderBits.{number, IsHeader};
ghost use Rattle.cube_alg.specs.Pieces.{value_of};
ghost use Rattle.device_fates.specs.declared.fate.Fate.TheVariants.{Sent};
ghost use Rattle.hdr_bits.specs.Lists.{Extends};
ghost use Rattle.device_fates.specs.Fates.{HasFate};
ghost use Rattle.fib_lookup.specs.Choices.{choices_in};
ghost use Rattle.device_fates.specs.Pieces.{in_any, own_fate, Give};

use crate::cubes::{dropped_cubes, own_cubes};
use crate::fate::Fate;
use crate::fates::Fates;
use cube_alg::Piece;
use fib_lookup::{HopForm, prefix_choices};
use hdr_bits::Cube;
use net_types::{Config, Interface, List, NoMemory};
use rib_build::build;
use std::alloc::Global;

/// Pieces in order of priority, with the numbers of the fates of their headers' destinations as values: what is dropped
/// at once, the addresses of the interfaces in the order of these, and what is sent on.
pub(crate) fn pieces_of(
    alloc: Global,
    fates: &mut Fates,
    config: &Config,
) -> Result<Vec<Piece>, NoMemory>
    ensures grows { Extends fates.old fates.new }
    ensures exact { IfOk result (λ r. (h : Header) → IsHeader h → HasFate config.now fates.new (value_of r.items (number h)) h.dst) }
{
    let interfaces = config.interfaces.as_slice();
    let mut pieces = Vec::new(alloc);
    let dropped = fates.number_of(Fate::Dropped)?;
    add_pieces(&dropped_cubes(alloc, interfaces)?, dropped, &mut pieces)?;
    let mut own = own_pieces(alloc, fates, interfaces)?;
    pieces.append(&mut own)?;
    let parts = prefix_choices(alloc, &build(alloc, config)?)?;
    let mut sent = sent_pieces(alloc, fates, parts)?;
    pieces.append(&mut sent)?;
    Ok(pieces)
}

/// Adds a piece with this value for each of the cubes.
fn add_pieces(cubes: &[Cube], value: u32, pieces: &mut Vec<Piece>) -> Result<(), NoMemory>
    ensures { OnOk result ((h : ℕ) → value_of pieces.new.items h ≡ option_or (value_of pieces.old.items h) (if in_any cubes.now h then Some value else None)) }
{
    for cube in cubes {
        pieces.push(Piece { cube: *cube, value })?;
    }
    Ok(())
}

/// Pieces for the addresses of these interfaces, in order.
fn own_pieces(
    alloc: Global,
    fates: &mut Fates,
    interfaces: &[Interface],
) -> Result<Vec<Piece>, NoMemory>
    ensures grows { Extends fates.old fates.new }
    ensures exact { IfOk result (λ r. Give fates.new r.items (λ h. own_fate interfaces.now (h / 2 ^ 80))) }
{
    let mut pieces = Vec::new(alloc);
    for (i, interface) in interfaces.iter().enumerate() {
        let cubes = own_cubes(alloc, interface)?;
        let position = number(i)?;
        let own = fates.number_of(Fate::Own { position })?;
        add_pieces(&cubes, own, &mut pieces)?;
    }
    Ok(pieces)
}

/// Pieces for these parts, in order.
fn sent_pieces(
    alloc: Global,
    fates: &mut Fates,
    parts: Vec<(Cube, List<HopForm>)>,
) -> Result<Vec<Piece>, NoMemory>
    ensures grows { Extends fates.old fates.new }
    ensures exact { IfOk result (λ r. Give fates.new r.items (λ h. option_map Sent (choices_in parts.items h))) }
{
    let mut pieces = Vec::with_capacity(alloc, parts.len())?;
    for (cube, choices) in parts {
        let sent = fates.number_of(Fate::Sent { choices })?;
        pieces.push(Piece { cube, value: sent })?;
    }
    Ok(pieces)
}

/// The position as the number that a fate has for it.
fn number(position: usize) -> Result<u32, NoMemory>
    ensures { IfOk result (λ number. number ≡ position) }
{
    u32::try_from(position).map_err(|_| NoMemory)
}
