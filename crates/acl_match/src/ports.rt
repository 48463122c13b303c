//! Port ranges as blocks, and port tests as cubes.

ghost use Rattle.std.specs.Prelude.{◌≡◌, ◌<◌, ◌≤◌, ◌^◌, ◌+◌, ◌*◌, ◌-◌, ◌/◌, ◌%◌, ◌==◌, ℕ, IfOk, OnOk, length, ◌&&◌, nat_le, nat_lt, IsTrue, ◌↔◌};
ghost use Rattle.std.specs.List.{list_any};
ghost use Rattle.hdr_bits.specs.CubeBits.{is_in};
ghost use Rattle.net_types.specs.AccessLists.{meets_port};
ghost use Rattle.acl_match.specs.Cubes.{any_in, field};
ghost use Rattle.acl_match.specs.Ports.{in_block, AddsBlocks};

use crate::block::Block;
use crate::fields::{block_cube, field_cube, one, outside};
use hdr_bits::Cube;
use net_types::PortTest;
use no_memory::NoMemory;
use std::alloc::Global;

/// The headers whose port, the 16 bits above the lowest `shift`, meets the test.
pub(crate) fn port_cubes(alloc: Global, shift: u32, test: &PortTest) -> Result<Vec<Cube>, NoMemory>
    requires { shift + 16 ≤ 112 }
    ensures { IfOk result (λ r. (h : ℕ) → any_in r.items h ≡ meets_port test.now (field shift 16 h)) }
{
    match test {
        PortTest::Any => one(alloc, Cube::all()),
        PortTest::Eq { ports } => each_port(alloc, shift, ports.as_slice()),
        PortTest::Neq { port } => outside(alloc, &port_cube(shift, *port)),
        PortTest::Gt { port } => above(alloc, shift, *port),
        PortTest::Lt { port } => below(alloc, shift, *port),
        PortTest::Range { low, high } => range(alloc, shift, *low, *high),
    }
}

// The headers with this port.
fn port_cube(shift: u32, port: u16) -> Cube
    requires { shift + 16 ≤ 112 }
    ensures { (h : ℕ) → is_in result h ≡ (field shift 16 h == port) }
{
    field_cube(shift, 16, 0xffff, u32::from(port))
}

// The headers with one of these ports: a cube for each.
fn each_port(alloc: Global, shift: u32, ports: &[u16]) -> Result<Vec<Cube>, NoMemory>
    requires { shift + 16 ≤ 112 }
    ensures { IfOk result (λ r. (h : ℕ) → any_in r.items h ≡ list_any (λ q. q == field shift 16 h) ports.now) }
{
    let mut cubes = Vec::with_capacity(alloc, ports.len())?;
    for port in ports {
        cubes.push(port_cube(shift, *port))?;
    }
    Ok(cubes)
}

// The headers with a port above this one.
fn above(alloc: Global, shift: u32, port: u16) -> Result<Vec<Cube>, NoMemory>
    requires { shift + 16 ≤ 112 }
    ensures { IfOk result (λ r. (h : ℕ) → any_in r.items h ≡ nat_lt port (field shift 16 h)) }
{
    match port.checked_add(1) {
        Some(low) => range(alloc, shift, low, u16::MAX),
        None => Ok(Vec::new(alloc)),
    }
}

// The headers with a port below this one.
fn below(alloc: Global, shift: u32, port: u16) -> Result<Vec<Cube>, NoMemory>
    requires { shift + 16 ≤ 112 }
    ensures { IfOk result (λ r. (h : ℕ) → any_in r.items h ≡ nat_lt (field shift 16 h) port) }
{
    match port.checked_sub(1) {
        Some(high) => range(alloc, shift, 0, high),
        None => Ok(Vec::new(alloc)),
    }
}

// The headers with a port from low to high, both included: at most 30 cubes.
fn range(alloc: Global, shift: u32, low: u16, high: u16) -> Result<Vec<Cube>, NoMemory>
    requires { shift + 16 ≤ 112 }
    ensures exact { IfOk result (λ r. (h : ℕ) → any_in r.items h ≡ (nat_le low (field shift 16 h) && nat_le (field shift 16 h) high)) }
    ensures few { IfOk result (λ r. length r.items ≤ 30) }
{
    let blocks = range_blocks(alloc, low, high)?;
    let mut cubes = Vec::with_capacity(alloc, blocks.len())?;
    for block in &blocks {
        cubes.push(block_cube(shift, block))?;
    }
    Ok(cubes)
}

// The blocks of the ports from low to high, both included: at most 30.
fn range_blocks(alloc: Global, low: u16, high: u16) -> Result<Vec<Block>, NoMemory>
    ensures exact { IfOk result (λ r. (p : ℕ) → p < 2 ^ 16 → list_any (in_block p) r.items ≡ (nat_le low p && nat_le p high)) }
    ensures few { IfOk result (λ r. length r.items ≤ 30) }
{
    let mut blocks = Vec::new(alloc);
    let all = Block {
        first: 0,
        width: 16,
    };
    add_blocks(u32::from(low), u32::from(high), all, &mut blocks)?;
    Ok(blocks)
}

// Whether the numbers from first to last are all within low and high.
fn is_whole(low: u32, high: u32, first: u32, last: u32) -> bool
    ensures { IsTrue result ↔ ((low ≤ first) × (last ≤ high)) }
{
    low <= first && last <= high
}

// Adds the blocks of the ports of this block from low to high.
fn add_blocks(low: u32, high: u32, block: Block, blocks: &mut Vec<Block>) -> Result<(), NoMemory>
    ensures { OnOk result (AddsBlocks low high block.first block.width blocks.old.items blocks.new.items) }
{
    let size = 1 << block.width;
    let last = block.first + (size - 1);
    if high < block.first {
        return Ok(());
    }
    if last < low {
        return Ok(());
    }
    if is_whole(low, high, block.first, last) {
        blocks.push(block)?;
        return Ok(());
    }
    if block.width == 0 {
        return Ok(());
    }
    let width = block.width - 1;
    let zeros = Block {
        first: block.first,
        width,
    };
    let ones = Block {
        first: block.first + (1 << width),
        width,
    };
    add_blocks(low, high, zeros, blocks)?;
    add_blocks(low, high, ones, blocks)?;
    Ok(())
}
