//! A whole list as disjoint cubes.

ghost use Rattle.std.specs.Prelude.{◌≡◌, ◌==◌, ℕ, Some, All, AllPairs, Any, IfOk, OnOk, map};
ghost use Rattle.std.specs.Option.{option_copied};
ghost use Rattle.hdr_bits.specs.HeaderBits.{header_of};
ghost use Rattle.hdr_bits.specs.CubeBits.{IsIn};
ghost use Rattle.cube_alg.specs.Pieces.{value_of};
ghost use Rattle.net_types.specs.AccessLists.{entries_verdict, verdict, passes};
ghost use Rattle.acl_match.specs.Lists.{entries_of, number_of, end_of, AreApartAnswers, Answers, AddsPieces};

use crate::entry::entry_cubes;
use cube_alg::{Piece, first_cut};
use hdr_bits::Cube;
use net_types::{AccessList, Entry};
use no_memory::NoMemory;
use std::alloc::Global;

/// Disjoint cubes that cover all headers, each with whether the list passes its headers.
///
/// Their number can grow with every pair of entries that test different fields: for a long list its diagram
/// is the smaller form.
pub fn compile_list(alloc: Global, list: Option<&AccessList>) -> Result<Vec<(Cube, bool)>, NoMemory>
    ensures apart { IfOk result (λ r. AllPairs AreApartAnswers r.items) }
    ensures covers { IfOk result (λ r. (h : ℕ) → Any (λ p. IsIn p.0 h) r.items) }
    ensures exact { IfOk result (λ r. All (Answers (option_copied list.entry)) r.items) }
{
    let pieces = list_pieces(alloc, entries_of(list))?;
    let parts = first_cut(alloc, &pieces)?;
    let answers = answers_of(alloc, &parts)?;
    Ok(answers)
}

/// The entries of the list: none without a list.
pub(crate) fn entries_of(list: Option<&AccessList>) -> &[Entry]
    ensures { result.now ≡ entries_of (option_copied list.entry) }
{
    match list {
        Some(list) => list.entries.as_slice(),
        None => &[],
    }
}

/// The number of an answer.
pub(crate) fn number_of(passes: bool) -> u32
    ensures { result ≡ number_of passes }
{
    if passes { 1 } else { 0 }
}

// The entries' cubes as pieces, and one for the end of the list.
fn list_pieces(alloc: Global, entries: &[Entry]) -> Result<Vec<Piece>, NoMemory>
    ensures { IfOk result (λ r. (h : ℕ) → value_of r.items h ≡ Some (number_of (passes (entries_verdict entries.now (header_of h))))) }
{
    let mut pieces = Vec::new(alloc);
    for e in entries {
        let cubes = entry_cubes(alloc, e)?;
        add_pieces(&cubes, e.permit, &mut pieces)?;
    }
    let end = Piece {
        cube: Cube::all(),
        value: end_of(entries),
    };
    pieces.push(end)?;
    Ok(pieces)
}

/// What the end of the list says: a list without entries passes everything, and any other denies.
pub(crate) fn end_of(entries: &[Entry]) -> u32
    ensures { result ≡ end_of entries.now }
{
    number_of(entries.is_empty())
}

// Adds a piece for each cube.
fn add_pieces(cubes: &[Cube], permit: bool, pieces: &mut Vec<Piece>) -> Result<(), NoMemory>
    ensures { OnOk result (AddsPieces cubes.now permit pieces.old.items pieces.new.items) }
{
    let value = number_of(permit);
    for cube in cubes {
        pieces.push(Piece { cube: *cube, value })?;
    }
    Ok(())
}

// The answers of the pieces.
fn answers_of(alloc: Global, parts: &[Piece]) -> Result<Vec<(Cube, bool)>, NoMemory>
    ensures { IfOk result (λ r. r.items ≡ map (λ p. (p.cube, p.value == 1)) parts.now) }
{
    let mut answers = Vec::with_capacity(alloc, parts.len())?;
    for p in parts {
        answers.push((p.cube, p.value == 1))?;
    }
    Ok(answers)
}
