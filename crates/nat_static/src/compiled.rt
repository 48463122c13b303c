//! All headers at once.

ghost use Rattle.std.specs.Prelude.{◌≡◌, ◌++◌, ℕ, map, length, Some, All, AllPairs, Any, IfOk, OnOk};
ghost use Rattle.std.specs.Option.{option_or};
ghost use Rattle.hdr_bits.specs.declared.header.Header.{Header};
ghost use Rattle.hdr_bits.specs.declared.cube.Cube.{Cube};
ghost use Rattle.hdr_bits.specs.HeaderBits.{number, IsHeader};
ghost use Rattle.hdr_bits.specs.CubeBits.{IsIn};
ghost use Rattle.cube_alg.specs.Pieces.{value_of, AreApartPieces};
ghost use Rattle.cube_alg.specs.Stamps.{applied};
ghost use Rattle.net_types.specs.Translation.{from_outside, from_inside};
ghost use Rattle.nat_static.specs.Rules.{outside_stamp, inside_stamp, rule_from_outside, rule_from_inside, outer_from_outside, outer_from_inside};
ghost use Rattle.nat_static.specs.Rules.{rule_stamp, stamp_at, stamp_if, stamps_if, applying, outer_applying, translated};
ghost use Rattle.nat_static.specs.Pieces.{ReplacesFixed, AreApartStamps, Translates, AddsRules, TellRule, HasRule, AddsStamps, AreStamps, with_stamps};

use crate::rules::{Direction, Group, is_in_group, rule_cube, rule_stamp};
use cube_alg::{Piece, Stamp, cut_within, first_cut};
use hdr_bits::Cube;
use net_types::NatRule;
use no_memory::NoMemory;
use std::alloc::Global;

/// Disjoint cubes that cover all headers, each with what translation from outside replaces in its headers.
pub fn compile_outside(alloc: Global, rules: &[NatRule]) -> Result<Vec<(Cube, Stamp)>, NoMemory>
    ensures apart { IfOk result (λ r. AllPairs AreApartStamps r.items) }
    ensures covers { IfOk result (λ r. (h : Header) → IsHeader h → Any (λ p. IsIn p.0 (number h)) r.items) }
    ensures exact { IfOk result (λ r. All (Translates (from_outside rules.now)) r.items) }
    ensures fixed { IfOk result (λ r. All (λ p. ReplacesFixed p.1 p.0) r.items) }
{
    compile(alloc, Direction::FromOutside, rules)
}

/// Disjoint cubes that cover all headers, each with what translation from inside replaces in its headers.
pub fn compile_inside(alloc: Global, rules: &[NatRule]) -> Result<Vec<(Cube, Stamp)>, NoMemory>
    ensures apart { IfOk result (λ r. AllPairs AreApartStamps r.items) }
    ensures covers { IfOk result (λ r. (h : Header) → IsHeader h → Any (λ p. IsIn p.0 (number h)) r.items) }
    ensures exact { IfOk result (λ r. All (Translates (from_inside rules.now)) r.items) }
    ensures fixed { IfOk result (λ r. All (λ p. ReplacesFixed p.1 p.0) r.items) }
{
    compile(alloc, Direction::FromInside, rules)
}

/// The port and plain rules as pieces, each with its rule's number: the first piece that holds a header is the rule that
/// replaces its destination from outside, and where none does no rule does.
pub fn outside_pieces(alloc: Global, rules: &[NatRule]) -> Result<Vec<Piece>, NoMemory>
    ensures { IfOk result
        (λ r. (h : Header) → IsHeader h → value_of r.items (number h) ≡ rule_from_outside rules.now h) }
{
    rule_pieces(alloc, Direction::FromOutside, rules)
}

/// The outer rules as pieces, each with its rule's number: the first piece that holds a header is the rule that replaces
/// its source from outside, and where none does no rule does.
pub fn outer_outside_pieces(alloc: Global, rules: &[NatRule]) -> Result<Vec<Piece>, NoMemory>
    ensures { IfOk result
        (λ r. (h : Header) → IsHeader h → value_of r.items (number h) ≡ outer_from_outside rules.now h) }
{
    outer_pieces(alloc, Direction::FromOutside, rules)
}

/// The port and plain rules as pieces, each with its rule's number: the first piece that holds a header is the rule that
/// replaces its source from inside, and where none does no rule does.
pub fn inside_pieces(alloc: Global, rules: &[NatRule]) -> Result<Vec<Piece>, NoMemory>
    ensures { IfOk result
        (λ r. (h : Header) → IsHeader h → value_of r.items (number h) ≡ rule_from_inside rules.now h) }
{
    rule_pieces(alloc, Direction::FromInside, rules)
}

/// The outer rules as pieces, each with its rule's number: the first piece that holds a header is the rule that replaces
/// its destination from inside, and where none does no rule does.
pub fn outer_inside_pieces(alloc: Global, rules: &[NatRule]) -> Result<Vec<Piece>, NoMemory>
    ensures { IfOk result
        (λ r. (h : Header) → IsHeader h → value_of r.items (number h) ≡ outer_from_inside rules.now h) }
{
    outer_pieces(alloc, Direction::FromInside, rules)
}

/// What these two rules replace from outside: a port or plain rule the destination, an outer rule the source, each by its
/// local side. A rule is named by its number; nothing is replaced without one, which is so where no rule applies, or
/// where there is no such rule.
pub fn outside_stamp(rules: &[NatRule], rule: Option<u32>, outer: Option<u32>) -> Stamp
    ensures stamp { result ≡ stamps_if outside_stamp rules.now rule outer }
    ensures applies { (h : Header) → rule_from_outside rules.now h ≡ rule → outer_from_outside rules.now h ≡ outer → applied result h ≡ from_outside rules.now h }

    // Where the rules apply to each header of a cube, the cube fixes what they replace.
    ensures fixed { (c : Cube) → ((h : Header) → IsHeader h → IsIn c (number h) → rule_from_outside rules.now h ≡ rule) → ((h : Header) → IsHeader h → IsIn c (number h) → outer_from_outside rules.now h ≡ outer) → ReplacesFixed result c }
{
    stamps_if(Direction::FromOutside, rules, rule, outer)
}

/// What these two rules replace from inside: a port or plain rule the source, an outer rule the destination, each by its
/// global side. Nothing is replaced without a number, as from outside.
pub fn inside_stamp(rules: &[NatRule], rule: Option<u32>, outer: Option<u32>) -> Stamp
    ensures stamp { result ≡ stamps_if inside_stamp rules.now rule outer }
    ensures applies { (h : Header) → rule_from_inside rules.now h ≡ rule → outer_from_inside rules.now h ≡ outer → applied result h ≡ from_inside rules.now h }

    // Where the rules apply to each header of a cube, the cube fixes what they replace.
    ensures fixed { (c : Cube) → ((h : Header) → IsHeader h → IsIn c (number h) → rule_from_inside rules.now h ≡ rule) → ((h : Header) → IsHeader h → IsIn c (number h) → outer_from_inside rules.now h ≡ outer) → ReplacesFixed result c }
{
    stamps_if(Direction::FromInside, rules, rule, outer)
}

fn compile(
    alloc: Global,
    direction: Direction,
    rules: &[NatRule],
) -> Result<Vec<(Cube, Stamp)>, NoMemory>
    ensures apart { IfOk result (λ r. AllPairs AreApartStamps r.items) }
    ensures covers { IfOk result (λ r. (h : Header) → IsHeader h → Any (λ p. IsIn p.0 (number h)) r.items) }
    ensures exact { IfOk result (λ r. All (Translates (translated direction rules.now)) r.items) }
    ensures fixed { IfOk result (λ r. All (λ p. ReplacesFixed p.1 p.0) r.items) }
{
    let inner_rules = rule_pieces(alloc, direction, rules)?;
    let outer_rules = outer_pieces(alloc, direction, rules)?;
    let pieces = closed(inner_rules, rules)?;
    let outer = closed(outer_rules, rules)?;
    let parts = first_cut(alloc, &pieces)?;
    let stamps = stamps_of(alloc, direction, rules, &parts, &outer)?;
    Ok(stamps)
}

// The pieces, and behind them one of all headers with the count of the rules.
fn closed(pieces: Vec<Piece>, rules: &[NatRule]) -> Result<Vec<Piece>, NoMemory>
    ensures { IfOk result (λ r. (h : ℕ) → value_of r.items h ≡ option_or (value_of pieces.items h) (Some (length rules.now))) }
{
    let mut closed = pieces;
    let rest = Piece {
        cube: Cube::all(),
        value: number_of(rules.len())?,
    };
    closed.push(rest)?;
    Ok(closed)
}

// The number of this position. There is no memory for so many rules that their numbers don't fit.
fn number_of(position: usize) -> Result<u32, NoMemory>
    ensures { IfOk result (λ n. n ≡ position) }
{
    u32::try_from(position).map_err(|_| NoMemory)
}

// A piece for each port rule and then for each plain one.
fn rule_pieces(
    alloc: Global,
    direction: Direction,
    rules: &[NatRule],
) -> Result<Vec<Piece>, NoMemory>
    ensures { IfOk result
        (λ r. (h : Header) → IsHeader h → value_of r.items (number h) ≡ applying direction rules.now h) }
{
    let mut pieces = Vec::with_capacity(alloc, rules.len())?;
    add_rules(Group::Port, direction, rules, &mut pieces)?;
    add_rules(Group::Plain, direction, rules, &mut pieces)?;
    Ok(pieces)
}

// A piece for each outer rule.
fn outer_pieces(
    alloc: Global,
    direction: Direction,
    rules: &[NatRule],
) -> Result<Vec<Piece>, NoMemory>
    ensures { IfOk result
        (λ r. (h : Header) → IsHeader h → value_of r.items (number h) ≡ outer_applying direction rules.now h) }
{
    let mut pieces = Vec::new(alloc);
    add_rules(Group::Outer, direction, rules, &mut pieces)?;
    Ok(pieces)
}

// Adds a piece for each rule of the group.
fn add_rules(
    group: Group,
    direction: Direction,
    rules: &[NatRule],
    pieces: &mut Vec<Piece>,
) -> Result<(), NoMemory>
    ensures { OnOk result (AddsRules group direction rules.now pieces.old.items pieces.new.items) }
{
    for (i, rule) in rules.iter().enumerate() {
        if !is_in_group(group, rule.kind) {
            continue;
        }
        let cube = rule_cube(direction, rule);
        let value = number_of(i)?;
        pieces.push(Piece { cube, value })?;
    }
    Ok(())
}

// The stamp of both rules.
fn stamps_if(
    direction: Direction,
    rules: &[NatRule],
    rule: Option<u32>,
    outer: Option<u32>,
) -> Stamp
    ensures { result ≡ stamps_if (rule_stamp direction) rules.now rule outer }
{
    stamp_if(direction, rules, rule).then(&stamp_if(direction, rules, outer))
}

// The stamp of the rule with this number, if there is one.
fn stamp_if(direction: Direction, rules: &[NatRule], rule: Option<u32>) -> Stamp
    ensures { result ≡ stamp_if (rule_stamp direction) rules.now rule }
{
    match rule {
        Some(number) => stamp_at(direction, rules, number),
        None => Stamp::none(),
    }
}

// The stamp of the rule with this number.
fn stamp_at(direction: Direction, rules: &[NatRule], number: u32) -> Stamp
    ensures { result ≡ stamp_at (rule_stamp direction) rules.now number }
{
    match rules.get(number as usize) {
        Some(rule) => rule_stamp(direction, rule),
        None => Stamp::none(),
    }
}

// The stamps for disjoint parts of all headers, each with the number of its port or plain rule, divided by the outer rules.
fn stamps_of(
    alloc: Global,
    direction: Direction,
    rules: &[NatRule],
    parts: &[Piece],
    outer: &[Piece],
) -> Result<Vec<(Cube, Stamp)>, NoMemory>
    requires apart { AllPairs AreApartPieces parts.now }
    requires parts { All (HasRule (applying direction rules.now) rules.now) parts.now }
    requires outer { TellRule (outer_applying direction rules.now) rules.now outer.now }
    ensures { IfOk result (λ r. AreStamps direction rules.now parts.now r.items) }
{
    let mut stamps = Vec::with_capacity(alloc, parts.len())?;
    for part in parts {
        add_stamps(alloc, direction, rules, part, outer, &mut stamps)?;
    }
    Ok(stamps)
}

// Of one of these parts.
fn add_stamps(
    alloc: Global,
    direction: Direction,
    rules: &[NatRule],
    part: &Piece,
    outer: &[Piece],
    stamps: &mut Vec<(Cube, Stamp)>,
) -> Result<(), NoMemory>
    requires part { HasRule (applying direction rules.now) rules.now part.now }
    requires outer { TellRule (outer_applying direction rules.now) rules.now outer.now }
    ensures { OnOk result (AddsStamps direction rules.now part.now.cube stamps.old.items stamps.new.items) }
{
    let divided = cut_within(alloc, outer, &part.cube)?;
    add_with(direction, rules, part.value, &divided, stamps)?;
    Ok(())
}

// Adds each part's cube with the stamp of the rule of this number and of the part's.
fn add_with(
    direction: Direction,
    rules: &[NatRule],
    rule: u32,
    parts: &[Piece],
    stamps: &mut Vec<(Cube, Stamp)>,
) -> Result<(), NoMemory>
    ensures { OnOk result (stamps.new.items ≡ stamps.old.items ++ map (with_stamps direction rules.now rule) parts.now) }
{
    let stamp = stamp_at(direction, rules, rule);
    for p in parts {
        let both = stamp.then(&stamp_at(direction, rules, p.value));
        stamps.push((p.cube, both))?;
    }
    Ok(())
}
