//! The diagram of prefixes as their trie, bit by bit from the first one on: no two diagrams are merged, and each node
//! is looked up once.

ghost use Rattle.std.specs.Prelude.{◌≡◌, ◌<◌, ◌≤◌, ◌++◌, ◌-◌, ◌^◌, ◌==◌, ℕ, true, false, All, IfOk, OnOk, length, take, drop, filter, slice_get};
ghost use Rattle.hdr_bits.specs.Bits.{bit_of};
ghost use Rattle.hdr_bits.specs.Lists.{Extends};
ghost use Rattle.cube_diagram.specs.Combined.{IsSound};
ghost use Rattle.cube_diagram.specs.Entries.{IsFirstMatch};
ghost use Rattle.cube_diagram.specs.Tries.{IsTrie, is_on};

use crate::combine::{Tables, add, split};
use crate::table::{NOTHING, Node};
use cube_alg::Piece;
use no_memory::NoMemory;

/// The number of the function that gives a header the value of the first of these pieces that holds it.
pub(crate) fn prefix_match(tables: &mut Tables, pieces: &[Piece]) -> Result<u32, NoMemory>
    requires { IsSound tables.old }
    ensures matches { IfOk result (IsFirstMatch tables.new.table.nodes.items pieces.now) }
    ensures grows { Extends tables.old.table.nodes.items tables.new.table.nodes.items }
    ensures sound { IsSound tables.new }
{
    let mut stack = pieces.to_vec(tables.alloc)?;
    let id = below(tables, &mut stack, 0, 0)?;
    Ok(id)
}

// The number that gives headers the value of the first of the pieces on the stack, from a position on, that holds them:
// headers that agree with each of these pieces before a bit. The stack is as it was.
fn below(
    tables: &mut Tables,
    stack: &mut Vec<Piece>,
    start: usize,
    bit: u8,
) -> Result<u32, NoMemory>
    requires sound { IsSound tables.old }
    requires start { start ≤ length stack.old.items }
    requires within { bit ≤ 112 }
    ensures trie { IfOk result (IsTrie tables.new.table.nodes.items (drop start stack.old.items) bit) }
    ensures stack { IfOk result (λ _. stack.new.items ≡ stack.old.items) }
    ensures grows { Extends tables.old.table.nodes.items tables.new.table.nodes.items }
    ensures sound { IsSound tables.new }
{
    let Some(first) = piece_at(stack, start) else {
        return Ok(NOTHING);
    };
    if is_free(first.cube.fixed, bit) {
        let value = first.value;
        let id = add(tables, Node::Value { value })?;
        return Ok(id);
    }
    let next = bit + 1;
    let mask = mask_of(bit);
    if !divides(stack, start, bit, mask) {
        let id = below(tables, stack, start, next)?;
        return Ok(id);
    }
    let end = stack.len();
    let from = add_side(stack, start, bit, mask, false)?;
    let low = below(tables, stack, from, next)?;
    stack.truncate(end);
    let from = add_side(stack, start, bit, mask, true)?;
    let high = below(tables, stack, from, next)?;
    stack.truncate(end);
    let id = split(tables, bit, low, high)?;
    Ok(id)
}

// Whether no bit from this one on is fixed.
fn is_free(fixed: u128, bit: u8) -> bool
    requires { bit ≤ 112 }
    ensures free { result ≡ true → (i : ℕ) → bit ≤ i → i < 112 → bit_of fixed i ≡ 0 }
    ensures within { result ≡ false → bit < 112 }
{
    u32::from(bit) + fixed.trailing_zeros() >= 112
}

fn piece_at(pieces: &[Piece], position: usize) -> Option<Piece>
    ensures { result ≡ slice_get pieces.now position }
{
    pieces.get(position).copied()
}

// The number whose one 1 is at the bit.
fn mask_of(bit: u8) -> u128
    requires { bit < 112 }
    ensures { result ≡ 2 ^ (111 - bit) }
{
    1 << (111 - bit)
}

// Whether the bit of the mask is 1.
fn has_bit(number: u128, bit: u8, mask: u128) -> bool
    requires { mask ≡ 2 ^ (111 - bit) }
    ensures { result ≡ (bit_of number bit == 1) }
{
    let _bit = bit;
    number & mask != 0
}

// Whether one of the pieces, from a position on, fixes the bit.
fn divides(pieces: &[Piece], start: usize, bit: u8, mask: u128) -> bool
    requires { mask ≡ 2 ^ (111 - bit) }
    ensures { result ≡ false → All (λ p. bit_of p.cube.fixed bit ≡ 0) (drop start pieces.now) }
{
    for i in start..pieces.len() {
        if has_bit(pieces[i].cube.fixed, bit, mask) {
            return true;
        }
    }
    false
}

// Whether the piece may hold headers whose bit is this one.
fn is_on(piece: &Piece, bit: u8, mask: u128, one: bool) -> bool
    requires { mask ≡ 2 ^ (111 - bit) }
    ensures { result ≡ is_on bit one piece.now }
{
    if !has_bit(piece.cube.fixed, bit, mask) {
        return true;
    }
    let digit = has_bit(piece.cube.bits, bit, mask);
    if one { digit } else { !digit }
}

// Whether each of the pieces, from a position on, may hold such headers.
fn all_on(pieces: &[Piece], start: usize, bit: u8, mask: u128, one: bool) -> bool
    requires { mask ≡ 2 ^ (111 - bit) }
    ensures { result ≡ true → filter (is_on bit one) (drop start pieces.now) ≡ drop start pieces.now }
{
    for i in start..pieces.len() {
        if !is_on(&pieces[i], bit, mask, one) {
            return false;
        }
    }
    true
}

// Where on the stack those of the pieces, from a position on, begin that may hold headers whose bit is this one: at that
// position if all may, and else they are added.
fn add_side(
    stack: &mut Vec<Piece>,
    start: usize,
    bit: u8,
    mask: u128,
    one: bool,
) -> Result<usize, NoMemory>
    requires start { start ≤ length stack.old.items }
    requires mask { mask ≡ 2 ^ (111 - bit) }
    ensures side { IfOk result (λ from. drop from stack.new.items ≡ filter (is_on bit one) (drop start stack.old.items)) }
    ensures from { IfOk result (λ from. from ≤ length stack.new.items) }
    ensures old { IfOk result (λ _. take (length stack.old.items) stack.new.items ≡ stack.old.items) }
{
    if all_on(stack, start, bit, mask, one) {
        return Ok(start);
    }
    let end = stack.len();
    push_side(stack, start, bit, mask, one)?;
    Ok(end)
}

// Adds those pieces.
fn push_side(
    stack: &mut Vec<Piece>,
    start: usize,
    bit: u8,
    mask: u128,
    one: bool,
) -> Result<(), NoMemory>
    requires start { start ≤ length stack.old.items }
    requires mask { mask ≡ 2 ^ (111 - bit) }
    ensures { OnOk result (stack.new.items ≡ stack.old.items ++ filter (is_on bit one) (drop start stack.old.items)) }
{
    for i in start..stack.len() {
        let piece = stack[i];
        if is_on(&piece, bit, mask, one) {
            stack.push(piece)?;
        }
    }
    Ok(())
}
