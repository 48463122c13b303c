//! The devices of a network.
ghost use Rattle.std.specs.Prelude.{◌≡◌, ◌≤◌, ◌<◌, ◌+◌, ◌*◌, ◌++◌, IfOk, OnOk, map};
ghost use Rattle.net_gen.specs.Devices.{address, subnet, interface, before, behind, own, interfaces, numbers, route, routes_to, routes, permit, to_network, to_host, entries, lists, name, device};

use crate::draws::{port, step};
use net_types::{
    AccessList, Config, Entry, FlagTest, IcmpTest, Interface, List, Masked, NoMemory, PortTest,
    Route, RouteExit, Side, Subnet, Text,
};
use std::alloc::Global;

/// The configuration of device `j`, 1 to `size`, in the old or the new network of a number and a size.
pub fn device(alloc: Global, new: bool, number: u64, size: u32, j: u32) -> Result<Config, NoMemory>
    requires { size ≤ 200 × 1 ≤ j × j ≤ size }
    ensures { IfOk result (λ config. config ≡ device new number size j) }
{
    Ok(Config {
        hostname: name(alloc, j)?,
        interfaces: interfaces(alloc, size, j)?,
        routes: routes(alloc, size, j)?,
        lists: lists(alloc, new, number, size, j)?,
        nat: List::empty(alloc),
    })
}

/// The name of device `j`.
pub fn name(alloc: Global, j: u32) -> Result<Text, NoMemory>
    ensures { IfOk result (λ text. text ≡ name j) }
{
    let text = format!(in alloc; "R{j}")?;
    Text::copy_of(alloc, text.as_bytes())
}

// The address 10.a.b.c.
fn address(a: u32, b: u32, c: u32) -> u32
    requires { a ≤ 255 × b ≤ 255 × c ≤ 255 }
    ensures { result ≡ address a b c }
{
    (10 << 24) + (a << 16) + (b << 8) + c
}

// An address, and the length of its network part.
fn subnet(address: u32, length: u8) -> Subnet
    ensures { result ≡ subnet address length }
{
    let length = length.min(32);
    Subnet { address, length }
}

fn interface(
    alloc: Global,
    name: &[u8],
    subnet: Subnet,
    input: Option<Text>,
) -> Result<Interface, NoMemory>
    ensures { IfOk result (λ i. i ≡ interface name.now subnet input) }
{
    Ok(Interface {
        name: Text::copy_of(alloc, name)?,
        primary: Some(subnet),
        secondary: List::empty(alloc),
        shut: false,
        input,
        output: None,
        side: Side::Neither,
    })
}

fn own(alloc: Global, j: u32) -> Result<Interface, NoMemory>
    requires { j ≤ 200 }
    ensures { IfOk result (λ i. i ≡ own j) }
{
    let subnet = subnet(address(1, j, 1), 24);
    if j != 1 {
        return interface(alloc, b"Ethernet2", subnet, None);
    }
    let list = Text::copy_of(alloc, b"101")?;
    interface(alloc, b"Ethernet2", subnet, Some(list))
}

fn interfaces(alloc: Global, size: u32, j: u32) -> Result<List<Interface>, NoMemory>
    requires { size ≤ 200 × 1 ≤ j × j ≤ size }
    ensures { IfOk result (λ is. is ≡ interfaces size j) }
{
    let mut interfaces = List::empty(alloc);
    add_before(alloc, &mut interfaces, j)?;
    add_behind(alloc, &mut interfaces, size, j)?;
    interfaces.push(own(alloc, j)?)?;
    Ok(interfaces)
}

fn add_before(alloc: Global, interfaces: &mut List<Interface>, j: u32) -> Result<(), NoMemory>
    requires { j ≤ 200 }
    ensures { OnOk result (interfaces.new ≡ interfaces.old ++ before j) }
{
    if j <= 1 {
        return Ok(());
    }
    let subnet = subnet(address(2, j - 1, 2), 30);
    interfaces.push(interface(alloc, b"Ethernet0", subnet, None)?)
}

fn add_behind(
    alloc: Global,
    interfaces: &mut List<Interface>,
    size: u32,
    j: u32,
) -> Result<(), NoMemory>
    requires { size ≤ 200 }
    ensures { OnOk result (interfaces.new ≡ interfaces.old ++ behind size j) }
{
    if j >= size {
        return Ok(());
    }
    let subnet = subnet(address(2, j, 1), 30);
    interfaces.push(interface(alloc, b"Ethernet1", subnet, None)?)
}

fn route(j: u32, i: u32) -> Route
    requires { 1 ≤ j × j ≤ 200 × i ≤ 200 }
    ensures { result ≡ route j i }
{
    let next = if i < j {
        address(2, j - 1, 1)
    } else {
        address(2, j, 2)
    };
    Route {
        prefix: subnet(address(1, i, 0), 24),
        exit: RouteExit::Next { next },
        distance: 1,
    }
}

fn routes(alloc: Global, size: u32, j: u32) -> Result<List<Route>, NoMemory>
    requires { size ≤ 200 × 1 ≤ j × j ≤ size }
    ensures { IfOk result (λ rs. rs ≡ routes size j) }
{
    let mut routes = Vec::new(alloc);
    for i in 1..size + 1 {
        add_route(&mut routes, j, i)?;
    }
    Ok(List::new(routes))
}

// Adds the route to the network of device i, unless that is the device's own.
fn add_route(routes: &mut Vec<Route>, j: u32, i: u32) -> Result<(), NoMemory>
    requires { 1 ≤ j × j ≤ 200 × i ≤ 200 }
    ensures { OnOk result (routes.new.items ≡ routes.old.items ++ routes_to j i) }
{
    if i == j {
        return Ok(());
    }
    routes.push(route(j, i))?;
    Ok(())
}

fn permit(
    alloc: Global,
    sequence: u32,
    proto: u8,
    dst: Masked,
    dport: u16,
) -> Result<Entry, NoMemory>
    ensures { IfOk result (λ e. e ≡ permit sequence proto dst dport) }
{
    Ok(Entry {
        sequence,
        permit: true,
        proto: Some(proto),
        src: Masked {
            value: 0,
            wild: u32::MAX,
        },
        sport: PortTest::Any,
        dst,
        dport: PortTest::Eq {
            ports: List::new(vec![in alloc; dport]?),
        },
        icmp: IcmpTest::Any,
        flags: FlagTest::Any,
    })
}

// The entries for the networks of all devices.
fn to_networks(alloc: Global, number: u64, size: u32) -> Result<Vec<Entry>, NoMemory>
    requires { size ≤ 200 }
    ensures { IfOk result (λ es. es.items ≡ map (to_network number) (numbers size)) }
{
    let mut entries = Vec::new(alloc);
    let mut state = number;
    for j in 1..size + 1 {
        let first = step(state);
        state = step(first);
        let dst = Masked {
            value: address(1, j, 0),
            wild: 255,
        };
        entries.push(permit(alloc, 10 * j, 6, dst, port(first))?)?;
    }
    Ok(entries)
}

// Adds the entries for a host of each device.
fn add_to_hosts(
    alloc: Global,
    entries: &mut Vec<Entry>,
    number: u64,
    size: u32,
) -> Result<(), NoMemory>
    requires { size ≤ 200 }
    ensures { OnOk result (entries.new.items ≡ entries.old.items ++ map (to_host number size) (numbers size)) }
{
    let mut state = number;
    for j in 1..size + 1 {
        state = step(step(state));
        let dst = Masked {
            value: address(1, j, 9),
            wild: 0,
        };
        entries.push(permit(alloc, 10 * (size + j), 17, dst, port(state))?)?;
    }
    Ok(())
}

fn entries(alloc: Global, new: bool, number: u64, size: u32) -> Result<Vec<Entry>, NoMemory>
    requires { size ≤ 200 }
    ensures { IfOk result (λ es. es.items ≡ entries new number size) }
{
    let mut entries = to_networks(alloc, number, size)?;
    if new {
        add_to_hosts(alloc, &mut entries, number, size)?;
    }
    Ok(entries)
}

fn lists(
    alloc: Global,
    new: bool,
    number: u64,
    size: u32,
    j: u32,
) -> Result<List<AccessList>, NoMemory>
    requires { size ≤ 200 }
    ensures { IfOk result (λ ls. ls ≡ lists new number size j) }
{
    let mut lists = List::empty(alloc);
    if j == 1 {
        lists.push(AccessList {
            name: Text::copy_of(alloc, b"101")?,
            extended: true,
            entries: List::new(entries(alloc, new, number, size)?),
        })?;
    }
    Ok(lists)
}
