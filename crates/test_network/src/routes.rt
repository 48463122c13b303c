//! Which written routes of a small router are installed, and what the choices for a destination are.

use crate::read::{read_lines, shown};
use fib_lookup::{HopForm, choices, compile_rib, prefix_choices};
use hdr_bits::{Cube, Header};
use net_types::{Hop, List, NoMemory, Rib, Route};
use rib_build::build;
use std::alloc::Global;
use std::io;

// The second interface is shut down.
const INTERFACES: &str = "interface E0
 ip address 10.0.0.1 255.255.255.252
interface E1
 ip address 10.0.1.1 255.255.255.252
 shutdown
interface L0
 ip address 1.1.1.1 255.255.255.255
 ip address 10.9.0.1 255.255.255.0 secondary";

/// Written routes, and the destination that is looked up.
const TABLES: [(&str, u32); 15] = [
    // No route, and a next hop that is looked up in turn, once and twice.
    ("", 0xc0a8_0007),
    (
        "ip route 192.168.0.0 255.255.255.0 172.16.0.1
ip route 172.16.0.0 255.255.255.0 10.0.0.2",
        0xc0a8_0007,
    ),
    (
        "ip route 192.168.0.0 255.255.255.0 172.17.0.1
ip route 172.17.0.0 255.255.255.0 172.16.0.1
ip route 172.16.0.0 255.255.255.0 10.0.0.2",
        0xc0a8_0007,
    ),
    // Two routes that only lead to each other.
    (
        "ip route 172.16.0.0 255.255.255.0 172.17.0.1
ip route 172.17.0.0 255.255.255.0 172.16.0.1",
        0xac10_0001,
    ),
    // A next hop in its own prefix goes round; beside one that doesn't, it stays a drop among the choices.
    (
        "ip route 192.168.0.0 255.255.255.0 10.0.0.2
ip route 192.168.0.0 255.255.255.0 192.168.0.9",
        0xc0a8_0007,
    ),
    // A longer prefix that leads into itself is installed, and its destinations are dropped.
    (
        "ip route 172.16.0.0 255.255.0.0 10.0.0.2
ip route 172.16.5.0 255.255.255.0 172.16.5.1",
        0xac10_0509,
    ),
    // The router's own address is no next hop, also that of a /32; a route of distance 255 is never valid.
    (
        "ip route 172.16.0.0 255.255.255.0 10.0.0.1
ip route 172.17.0.0 255.255.255.0 1.1.1.1
ip route 192.168.0.0 255.255.255.0 10.0.0.2 255",
        0xc0a8_0007,
    ),
    // Neither the interface that is shut down carries a route, nor its subnet.
    (
        "ip route 172.16.0.0 255.255.255.0 E1
ip route 172.17.0.0 255.255.255.0 10.0.1.2",
        0xac10_0001,
    ),
    // An interface alone has the destination as the next address, also where it is a subnet of one address.
    ("ip route 172.17.0.0 255.255.255.0 L0", 0xac11_0001),
    ("ip route 1.1.1.0 255.255.255.0 10.0.0.2", 0x0101_0101),
    // A secondary address connects its subnet.
    ("ip route 172.16.0.0 255.255.255.0 10.9.0.7", 0xac10_0001),
    // Equal routes are all choices, and each choice stands once; a drop comes first.
    (
        "ip route 192.168.0.0 255.255.255.0 10.9.0.7
ip route 192.168.0.0 255.255.255.0 10.0.0.2
ip route 192.168.0.0 255.255.255.0 E0 10.0.0.2
ip route 192.168.0.0 255.255.255.0 Null0",
        0xc0a8_0007,
    ),
    (
        "ip route 192.168.0.0 255.255.255.0 172.16.0.1
ip route 172.16.0.0 255.255.255.0 10.9.0.7
ip route 172.16.0.0 255.255.255.0 10.0.0.2",
        0xc0a8_0007,
    ),
    // A route of a greater distance waits for the better one to be invalid.
    (
        "ip route 172.16.0.0 255.255.255.0 Null0 200
ip route 172.16.0.0 255.255.255.0 10.0.0.2
ip route 172.17.0.0 255.255.255.0 Null0 200
ip route 172.17.0.0 255.255.255.0 10.0.1.2",
        0xac11_0001,
    ),
    // The longest prefix decides.
    (
        "ip route 0.0.0.0 0.0.0.0 Null0
ip route 172.16.0.0 255.255.0.0 10.9.0.7
ip route 172.16.0.0 255.255.255.0 10.0.0.2",
        0xac10_0001,
    ),
];

// Two equal routes behind two links.
const TWO_LINKS: &str = "interface Ethernet0
 ip address 10.0.0.1 255.255.255.0
interface Ethernet1
 ip address 10.0.1.1 255.255.255.252
interface Ethernet2
 ip address 10.0.2.1 255.255.255.252";

const EQUAL_ROUTES: &str = "ip route 192.168.0.0 255.255.255.0 10.0.1.2
ip route 192.168.0.0 255.255.255.0 10.0.2.2";

/// Prints of each table the installed routes, and the choices.
pub(crate) fn print_routes(rt: &HostRuntime) -> io::Result<()> {
    for (lines, address) in TABLES {
        print_table(rt, INTERFACES, lines, address)?;
    }
    print_table(rt, TWO_LINKS, EQUAL_ROUTES, 0xc0a8_0007)
}

fn print_table(rt: &HostRuntime, interfaces: &str, lines: &str, address: u32) -> io::Result<()> {
    match installed(rt.alloc(), interfaces, lines) {
        Some(rib) => print_rib(rt, &rib, address),
        None => println!(rt; "refused: {lines}"),
    }
}

fn print_rib(rt: &HostRuntime, rib: &Rib, address: u32) -> io::Result<()> {
    print!(rt; "of {}", rib.count)?;
    for route in rib.routes.as_slice() {
        print_prefix(rt, route)?;
    }
    print_choices(rt, rib, address)?;
    println!(rt; "")
}

fn installed(alloc: Global, interfaces: &str, lines: &str) -> Option<Rib> {
    let config = read_lines(alloc, interfaces, lines)?;
    build(alloc, &config).ok()
}

fn print_prefix(rt: &HostRuntime, route: &Route) -> io::Result<()> {
    let [a, b, c, d] = route.prefix.address.to_be_bytes();
    print!(rt; " {a}.{b}.{c}.{d}/{}", route.prefix.length)
}

fn print_choices(rt: &HostRuntime, rib: &Rib, address: u32) -> io::Result<()> {
    match choices(rt.alloc(), rib, address) {
        Ok(hops) => print_hops(rt, rib, address, &hops),
        Err(_) => print!(rt; " no memory"),
    }
}

fn print_hops(rt: &HostRuntime, rib: &Rib, address: u32, hops: &[Hop]) -> io::Result<()> {
    print!(rt; ":")?;
    for hop in hops {
        print_hop(rt, hop)?;
    }
    let alike = are_compiled(rt.alloc(), rib, address, hops) == Ok(true)
        && are_tried_first(rt.alloc(), rib, address, hops) == Ok(true);
    print!(rt; "{}", if alike { "" } else { " ?" })
}

fn print_hop(rt: &HostRuntime, hop: &Hop) -> io::Result<()> {
    match hop {
        Hop::Discard => print!(rt; " drop"),
        Hop::Out { name, next } => {
            let [a, b, c, d] = next.to_be_bytes();
            print!(rt; " {} {a}.{b}.{c}.{d}", shown(name))
        }
    }
}

// Whether the disjoint cube that holds the destination has these choices.
fn are_compiled(alloc: Global, rib: &Rib, address: u32, hops: &[Hop]) -> Result<bool, NoMemory> {
    let rows = compile_rib(alloc, rib)?;
    Ok(have_choices(&rows, address, hops))
}

// Whether the first prefix that holds the destination has these choices.
fn are_tried_first(alloc: Global, rib: &Rib, address: u32, hops: &[Hop]) -> Result<bool, NoMemory> {
    let rows = prefix_choices(alloc, rib)?;
    Ok(have_choices(&rows, address, hops))
}

fn have_choices(rows: &[(Cube, List<HopForm>)], address: u32, hops: &[Hop]) -> bool {
    let header = Header {
        dst: address,
        ..Cube::all().least()
    };
    match rows.iter().find(|row| row.0.contains(&header)) {
        Some(row) => are_hops(row.1.as_slice(), address, hops),
        None => false,
    }
}

fn are_hops(forms: &[HopForm], address: u32, hops: &[Hop]) -> bool {
    forms.len() == hops.len() && forms.iter().zip(hops).all(|(f, h)| is_hop(f, address, h))
}

fn is_hop(form: &HopForm, address: u32, hop: &Hop) -> bool {
    match hop {
        Hop::Discard => matches!(form, HopForm::Discard),
        Hop::Out { name, next } => match form {
            HopForm::Discard => false,
            HopForm::Direct { name: other } => name.same(other) && *next == address,
            HopForm::Via {
                name: other,
                next: after,
            } => name.same(other) && next == after,
        },
    }
}
