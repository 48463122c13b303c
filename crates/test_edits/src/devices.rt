//! Configurations that are drawn, and changes of one.

use crate::draws::Draws;
use crate::plan::INTERFACES;
use net_types::{
    AccessList, Config, Entry, FlagTest, IcmpTest, Interface, List, Masked, NatKind, NatRule,
    NetDevice, NoMemory, PortTest, Route, RouteExit, Side, Subnet, Text,
};
use std::alloc::Global;
use std::mem;

/// A device of this name with a configuration that is drawn.
pub(crate) fn drawn(alloc: Global, draws: &mut Draws, name: u32) -> Result<NetDevice, NoMemory> {
    let mut config = Config {
        hostname: Text::copy_of(alloc, b"router")?,
        interfaces: List::empty(alloc),
        routes: List::empty(alloc),
        lists: List::empty(alloc),
        nat: List::empty(alloc),
    };
    draw(alloc, draws, &mut config)?;
    device(alloc, name, config)
}

// What a configuration has is drawn.
fn draw(alloc: Global, draws: &mut Draws, config: &mut Config) -> Result<(), NoMemory> {
    let count = 2 + draws.below(INTERFACES - 1);
    for number in 0..count {
        config.interfaces.push(interface(alloc, draws, number)?)?;
    }
    for _turn in 0..3 {
        config.routes.push(route(alloc, draws)?)?;
    }
    config.lists.push(list(alloc, draws)?)?;
    if draws.once_in(4) {
        config.nat.push(rule())?;
    }
    Ok(())
}

// The device of this name, whose interfaces have the numbers 0, 1, ..
fn device(alloc: Global, name: u32, config: Config) -> Result<NetDevice, NoMemory> {
    let count = config.interfaces.as_slice().len();
    let mut numbers = List::empty(alloc);
    for number in 0..u32::try_from(count).unwrap_or(0) {
        numbers.push(number)?;
    }
    if numbers.as_slice().len() != count {
        return Err(NoMemory);
    }
    Ok(NetDevice {
        name,
        config,
        numbers,
    })
}

/// The device with one interface, route or entry drawn anew, or one route more.
pub(crate) fn changed(
    alloc: Global,
    draws: &mut Draws,
    before: NetDevice,
) -> Result<NetDevice, NoMemory> {
    let NetDevice {
        name,
        mut config,
        ..
    } = before;
    match draws.below(4) {
        0 => config.routes.push(route(alloc, draws)?)?,
        1 => {
            let mut lists = List::empty(alloc);
            lists.push(list(alloc, draws)?)?;
            config.lists = lists;
        }
        2 => shut_one(alloc, draws, &mut config),
        _ => {
            let number = draws.below(INTERFACES);
            let one = interface(alloc, draws, number)?;
            put_interface(alloc, &mut config, number as usize, one);
        }
    }
    device(alloc, name, config)
}

// Shuts an interface, or brings it up.
fn shut_one(alloc: Global, draws: &mut Draws, config: &mut Config) {
    let mut interfaces = mem::replace(&mut config.interfaces, List::empty(alloc)).into_vec();
    let position = draws.below(INTERFACES) as usize;
    if let Some(interface) = interfaces.get_mut(position) {
        interface.shut = !interface.shut;
    }
    config.interfaces = List::new(interfaces);
}

// Puts the interface in the place of the one at the position, if there is one.
fn put_interface(alloc: Global, config: &mut Config, position: usize, one: Interface) {
    let mut interfaces = mem::replace(&mut config.interfaces, List::empty(alloc)).into_vec();
    if let Some(interface) = interfaces.get_mut(position) {
        *interface = one;
    }
    config.interfaces = List::new(interfaces);
}

fn interface(alloc: Global, draws: &mut Draws, number: u32) -> Result<Interface, NoMemory> {
    let mut secondary = List::empty(alloc);
    if draws.once_in(4) {
        let net = draws.below(INTERFACES);
        secondary.push(own_subnet(draws, net))?;
    }
    let primary = if draws.once_in(8) {
        None
    } else {
        Some(own_subnet(draws, number))
    };
    let input = list_name(alloc, draws.once_in(4))?;
    let output = list_name(alloc, draws.once_in(6))?;
    Ok(Interface {
        name: port(alloc, number)?,
        primary,
        secondary,
        shut: draws.once_in(4),
        input,
        output,
        side: side(draws),
    })
}

fn list_name(alloc: Global, named: bool) -> Result<Option<Text>, NoMemory> {
    if !named {
        return Ok(None);
    }
    Ok(Some(Text::copy_of(alloc, b"A")?))
}

fn side(draws: &mut Draws) -> Side {
    match draws.below(4) {
        0 => Side::Inside,
        1 => Side::Outside,
        _ => Side::Neither,
    }
}

// The name of the interface of this number.
fn port(alloc: Global, number: u32) -> Result<Text, NoMemory> {
    match number {
        0 => Text::copy_of(alloc, b"e0"),
        1 => Text::copy_of(alloc, b"e1"),
        2 => Text::copy_of(alloc, b"e2"),
        _ => Text::copy_of(alloc, b"e3"),
    }
}

// An address of the network of this number. Two devices may have the same.
fn address(draws: &mut Draws, net: u32) -> u32 {
    0x0a00_0000 | ((net & 255) << 8) | (1 + draws.below(6))
}

fn own_subnet(draws: &mut Draws, net: u32) -> Subnet {
    Subnet {
        address: address(draws, net),
        length: 24,
    }
}

fn route(alloc: Global, draws: &mut Draws) -> Result<Route, NoMemory> {
    let net = draws.below(8);
    let prefix = match draws.below(3) {
        0 => Subnet {
            address: 0,
            length: 0,
        },
        1 => Subnet {
            address: 0x0a00_0000 | ((net & 255) << 16),
            length: 16,
        },
        _ => Subnet {
            address: 0x0a00_0000 | ((net & 255) << 8),
            length: 24,
        },
    };
    Ok(Route {
        prefix,
        exit: exit(alloc, draws)?,
        distance: 1,
    })
}

fn exit(alloc: Global, draws: &mut Draws) -> Result<RouteExit, NoMemory> {
    let number = draws.below(INTERFACES);
    let next = address(draws, number);
    match draws.below(6) {
        0 => Ok(RouteExit::Null),
        1 => Ok(RouteExit::Port {
            name: port(alloc, number)?,
        }),
        2 => Ok(RouteExit::Both {
            name: port(alloc, number)?,
            next,
        }),
        _ => Ok(RouteExit::Next { next }),
    }
}

// Denies what is for one network, and permits everything else.
fn list(alloc: Global, draws: &mut Draws) -> Result<AccessList, NoMemory> {
    let mut entries = List::empty(alloc);
    let net = Masked {
        value: 0x0a00_0000 | (draws.below(8) << 8),
        wild: 255,
    };
    entries.push(entry(10, false, net))?;
    let all = Masked {
        value: 0,
        wild: u32::MAX,
    };
    entries.push(entry(20, true, all))?;
    Ok(AccessList {
        name: Text::copy_of(alloc, b"A")?,
        extended: true,
        entries,
    })
}

fn entry(sequence: u32, permit: bool, dst: Masked) -> Entry {
    Entry {
        sequence,
        permit,
        proto: None,
        src: Masked {
            value: 0,
            wild: u32::MAX,
        },
        sport: PortTest::Any,
        dst,
        dport: PortTest::Any,
        icmp: IcmpTest::Any,
        flags: FlagTest::Any,
    }
}

fn rule() -> NatRule {
    NatRule {
        kind: NatKind::Plain,
        local: 0x0a00_0002,
        local_port: 0,
        global: 0x0a00_0705,
        global_port: 0,
    }
}
