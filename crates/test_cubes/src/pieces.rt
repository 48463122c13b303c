//! Two cubes, the rest of one outside another, and the cut of a region by first match.

use crate::text::{cube, digits, print_all};
use cube_alg::{Piece, covers, cut_within, first_cut, meet, meets, minus, split};
use hdr_bits::Cube;
use test_stop::Stop;

/// What two cubes have in common, and the halves of one at its first `*` of the flags.
pub(crate) fn show_pairs(rt: &HostRuntime) -> Result<(), Stop> {
    let (low, high) = split(&Cube::all(), 104);
    let (one, two) = (cube("1*******"), cube("*0******"));
    let (both, other) = (cube("10******"), cube("11******"));
    print_all(
        rt,
        &[
            ("1******* meets *0******", meets(&one, &two)),
            ("1******* covers *0******", covers(&one, &two)),
            ("1******* covers 10******", covers(&one, &both)),
            ("10****** meets 11******", meets(&both, &other)),
            ("they meet in 10******", meet(&one, &two) == Some(both)),
            ("nothing in common", meet(&both, &other).is_none()),
            ("halves", low == cube("0*******") && high == one),
        ],
    )
}

/// `a` without `b`: a part for each bit where only `b` has a digit, in rising order, that differs from `b` there.
pub(crate) fn show_rests(rt: &HostRuntime) -> Result<(), Stop> {
    for (a, b) in [
        ("********", "101*****"),
        ("1*******", "*01*****"),
        ("11******", "10******"),
        ("101*****", "10******"),
    ] {
        show_rest(rt, a, b)?;
    }
    Ok(())
}

fn show_rest(rt: &HostRuntime, a: &str, b: &str) -> Result<(), Stop> {
    let mut rest = Vec::new(rt.alloc());
    minus(&cube(a), &cube(b), &mut rest)?;
    println!(rt; "{a} without {b}:")?;
    for part in rest.iter() {
        println!(rt; "  {}", digits(rt.alloc(), part)?)?;
    }
    Ok(())
}

fn piece(digits: &str, value: u32) -> Piece {
    Piece {
        cube: cube(digits),
        value,
    }
}

/// The first piece that holds a header decides.
pub(crate) fn show_cuts(rt: &HostRuntime) -> Result<(), Stop> {
    let pieces = [piece("10******", 7), piece("********", 9)];
    let behind = [piece("********", 9), piece("10******", 7)];
    show_parts(rt, &first_cut(rt.alloc(), &pieces)?)?;
    show_parts(rt, &cut_within(rt.alloc(), &pieces, &cube("1*******"))?)?;
    show_parts(rt, &cut_within(rt.alloc(), &behind, &cube("1*******"))?)
}

fn show_parts(rt: &HostRuntime, parts: &[Piece]) -> Result<(), Stop> {
    println!(rt; "cut into {}:", parts.len())?;
    for part in parts {
        println!(rt; "  {} {}", digits(rt.alloc(), &part.cube)?, part.value)?;
    }
    Ok(())
}
