//! Cases that are worked out in words: what is left of a prefix without an address, what a stamp sends into a cube, and the rows of
//! pieces side by side, two of them and a piece for each port.

use crate::text::print_all;
use canon_rows::{Piece, canon};
use cube_alg::{Stamp, minus};
use hdr_bits::Cube;
use std::alloc::Global;
use test_stop::Stop;

/// The headers to the addresses that agree with this one in the bits of the mask.
fn to_addresses(address: u32, mask: u32) -> Cube {
    let (fixed, bits) = (u128::from(mask) << 80, u128::from(address & mask) << 80);
    Cube::from_masks(fixed, bits).unwrap_or(Cube::all())
}

/// TCP to the port of 10.0.1.5.
fn to_port(port: u32) -> Cube {
    let fixed = 0xffff_ffff << 80 | 0xff << 40 | 0xffff << 24;
    let bits = 0x0a00_0105 << 80 | 6 << 40 | u128::from(port) << 24;
    Cube::from_masks(fixed, bits).unwrap_or(Cube::all())
}

pub(crate) fn show(rt: &HostRuntime) -> Result<(), Stop> {
    let alloc = rt.alloc();
    let stamp = Stamp {
        dst: Some(0x0a00_0005),
        ..Stamp::none()
    };
    let near = to_addresses(0x0a00_0000, 0xffff_ff00);
    let far = to_addresses(0x0a01_0000, 0xffff_0000);
    print_all(
        rt,
        &[
            ("10.0.0.0/30 without 10.0.0.1", is_rest(alloc)?),
            (
                "all are sent to 10.0.0.5",
                stamp.back(&near) == Some(Cube::all()),
            ),
            ("none is sent to 10.1.0.0/16", stamp.back(&far).is_none()),
            ("two /31 of one value are a /30", are_joined(alloc)?),
        ],
    )?;
    let one = rows_of_ports(alloc, None)?;
    let but_one = rows_of_ports(alloc, Some(80))?;
    println!(rt;
        "rows of 65,536 ports of one value: {one}; with another value of port 80: {but_one}"
    )?;
    Ok(())
}

// First 10.0.0.2/31, then 10.0.0.0.
fn is_rest(alloc: Global) -> Result<bool, Stop> {
    let whole = to_addresses(0x0a00_0000, 0xffff_fffc);
    let mut parts = Vec::new(alloc);
    minus(&whole, &to_addresses(0x0a00_0001, 0xffff_ffff), &mut parts)?;
    let upper = to_addresses(0x0a00_0002, 0xffff_fffe);
    Ok(
        matches!(parts.as_slice(), [first, second] if *first == upper && *second == to_addresses(0x0a00_0000, 0xffff_ffff)),
    )
}

fn are_joined(alloc: Global) -> Result<bool, Stop> {
    let mut pieces = Vec::new(alloc);
    for address in [0x0a00_0000, 0x0a00_0002] {
        pieces.push(Piece {
            cube: to_addresses(address, 0xffff_fffe),
            value: 7,
        })?;
    }
    let rows = canon(alloc, &pieces)?;
    let both = to_addresses(0x0a00_0000, 0xffff_fffc);
    Ok(matches!(rows.as_slice(), [row] if row.cube == both && row.value == 7))
}

// How many rows a piece for each port has, where all have one value, or all but that of one port.
fn rows_of_ports(alloc: Global, other: Option<u32>) -> Result<usize, Stop> {
    let mut pieces = Vec::new(alloc);
    for port in 0..65_536u32 {
        pieces.push(Piece {
            cube: to_port(port),
            value: if other == Some(port) { 2 } else { 1 },
        })?;
    }
    let rows = canon(alloc, &pieces)?;
    Ok(rows.len())
}
