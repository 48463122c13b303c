//! Static address translation by a plain rule and a port rule with one global address, and by an outer rule.

use crate::read::read_lines;
use hdr_bits::Header;
use nat_static::{
    compile_inside, compile_outside, from_inside, from_outside, inside_pieces, inside_stamp,
    outer_inside_pieces, outer_outside_pieces, outside_pieces, outside_stamp,
};
use net_types::NatRule;
use std::alloc::Global;
use std::io;

// 10.0.0.5 inside is 203.0.113.5 outside, and so is port 80 of 10.0.0.6 as port 8080.
const PLAIN: &str = "ip nat inside source static 10.0.0.5 203.0.113.5";

// 198.51.100.7 outside is 10.8.0.7 inside.
const OTHERS: &str = "ip nat inside source static tcp 10.0.0.6 80 203.0.113.5 8080
ip nat outside source static 198.51.100.7 10.8.0.7";

/// Of a side of a header: the address, the protocol, the port.
const SIDES: [(u32, u8, u16); 8] = [
    (0xcb00_7105, 6, 8080),
    (0xcb00_7105, 6, 81),
    (0xcb00_7105, 17, 8080),
    (0xcb00_7105, 1, 0),
    (0x0a00_0006, 6, 80),
    (0x0a00_0006, 6, 81),
    (0x0a00_0006, 17, 80),
    (0x0a00_0005, 6, 80),
];

// The host at the other end, as it is known outside and inside, and a host that no rule knows.
const GLOBAL: u32 = 0xc633_6407;

const LOCAL: u32 = 0x0a08_0007;

const OTHER: u32 = 9;

/// Prints of each side what it is as a destination from outside and as a source from inside, and what becomes of the other
/// side: of a host that an outer rule knows, and of another one.
pub(crate) fn print_translation(rt: &HostRuntime) -> io::Result<()> {
    match read_lines(rt.alloc(), PLAIN, OTHERS) {
        Some(config) => print_sides(rt, config.nat.as_slice()),
        None => println!(rt; "refused: {PLAIN}"),
    }
}

fn print_sides(rt: &HostRuntime, rules: &[NatRule]) -> io::Result<()> {
    for (address, proto, port) in SIDES {
        print_side(rt, address, port)?;
        print!(rt; " protocol {proto}: to ")?;
        print_outside(rt, rules, &to(GLOBAL, address, proto, port))?;
        print!(rt; ", ")?;
        print_outside(rt, rules, &to(OTHER, address, proto, port))?;
        print!(rt; ", from ")?;
        print_inside(rt, rules, &from(LOCAL, address, proto, port))?;
        print!(rt; ", ")?;
        print_inside(rt, rules, &from(OTHER, address, proto, port))?;
        println!(rt; "")?;
    }
    Ok(())
}

fn to(src: u32, dst: u32, proto: u8, dport: u16) -> Header {
    Header {
        dst,
        src,
        proto,
        dport,
        sport: 80,
        flags: 2,
    }
}

fn from(dst: u32, src: u32, proto: u8, sport: u16) -> Header {
    Header {
        dst,
        src,
        proto,
        dport: 8080,
        sport,
        flags: 2,
    }
}

fn print_outside(rt: &HostRuntime, rules: &[NatRule], header: &Header) -> io::Result<()> {
    let answer = from_outside(rules, header);
    let by_cubes = outside_by_cubes(rt.alloc(), rules, header) == Some(answer);
    if !(by_cubes && outside_by_rule(rt.alloc(), rules, header) == Some(answer)) {
        return print!(rt; "?");
    }
    print_side(rt, answer.dst, answer.dport)?;
    print_other(rt, answer.src)
}

fn print_inside(rt: &HostRuntime, rules: &[NatRule], header: &Header) -> io::Result<()> {
    let answer = from_inside(rules, header);
    let by_cubes = inside_by_cubes(rt.alloc(), rules, header) == Some(answer);
    if !(by_cubes && inside_by_rule(rt.alloc(), rules, header) == Some(answer)) {
        return print!(rt; "?");
    }
    print_side(rt, answer.src, answer.sport)?;
    print_other(rt, answer.dst)
}

fn print_side(rt: &HostRuntime, address: u32, port: u16) -> io::Result<()> {
    let [a, b, c, d] = address.to_be_bytes();
    print!(rt; "{a}.{b}.{c}.{d}:{port}")
}

fn print_other(rt: &HostRuntime, address: u32) -> io::Result<()> {
    let [a, b, c, d] = address.to_be_bytes();
    print!(rt; " with {a}.{b}.{c}.{d}")
}

// By the stamp of the cube that holds the header.
fn outside_by_cubes(alloc: Global, rules: &[NatRule], header: &Header) -> Option<Header> {
    let stamps = compile_outside(alloc, rules).ok()?;
    let held = stamps.iter().find(|p| p.0.contains(header))?;
    Some(held.1.apply(header))
}

fn inside_by_cubes(alloc: Global, rules: &[NatRule], header: &Header) -> Option<Header> {
    let stamps = compile_inside(alloc, rules).ok()?;
    let held = stamps.iter().find(|p| p.0.contains(header))?;
    Some(held.1.apply(header))
}

// By the stamp of the first rules whose pieces hold the header.
fn outside_by_rule(alloc: Global, rules: &[NatRule], header: &Header) -> Option<Header> {
    let pieces = outside_pieces(alloc, rules).ok()?;
    let rule = pieces
        .iter()
        .find(|p| p.cube.contains(header))
        .map(|p| p.value);
    let outer_pieces = outer_outside_pieces(alloc, rules).ok()?;
    let outer = outer_pieces
        .iter()
        .find(|p| p.cube.contains(header))
        .map(|p| p.value);
    Some(outside_stamp(rules, rule, outer).apply(header))
}

fn inside_by_rule(alloc: Global, rules: &[NatRule], header: &Header) -> Option<Header> {
    let pieces = inside_pieces(alloc, rules).ok()?;
    let rule = pieces
        .iter()
        .find(|p| p.cube.contains(header))
        .map(|p| p.value);
    let outer_pieces = outer_inside_pieces(alloc, rules).ok()?;
    let outer = outer_pieces
        .iter()
        .find(|p| p.cube.contains(header))
        .map(|p| p.value);
    Some(inside_stamp(rules, rule, outer).apply(header))
}
