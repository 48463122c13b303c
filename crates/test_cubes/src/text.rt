//! Cubes as eight digits.

use hdr_bits::Cube;
use std::alloc::Global;
use test_stop::Stop;

/// The cube of headers whose flags have these digits; each other bit is `*`.
pub(crate) fn cube(digits: &str) -> Cube {
    let mut fixed = 0u128;
    let mut bits = 0u128;
    for digit in digits.bytes() {
        fixed <<= 1;
        bits <<= 1;
        if digit != b'*' {
            fixed |= 1;
        }
        if digit == b'1' {
            bits |= 1;
        }
    }
    Cube::from_masks(fixed, bits).unwrap_or(Cube::all())
}

/// The last eight digits of the cube, behind `+` where an earlier bit isn't `*`.
pub(crate) fn digits(alloc: Global, cube: &Cube) -> Result<String, Stop> {
    let mut text = String::new(alloc);
    if cube.fixed >= 256 {
        text.push('+')?;
    }
    for k in 0..8u32 {
        let weight = 128u128 >> k;
        let digit = if cube.fixed & weight == 0 {
            '*'
        } else if cube.bits & weight == 0 {
            '0'
        } else {
            '1'
        };
        text.push(digit)?;
    }
    Ok(text)
}

/// A line for each name, and whether it holds.
pub(crate) fn print_all(rt: &HostRuntime, lines: &[(&str, bool)]) -> Result<(), Stop> {
    for (name, holds) in lines {
        println!(rt; "{name}: {holds}")?;
    }
    Ok(())
}
