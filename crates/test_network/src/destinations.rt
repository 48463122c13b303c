//! What a small device does with destinations.

use crate::read::{read_lines, shown};
use cube_diagram::Diagrams;
use device_fates::{Fate, Fates, add_device};
use fib_lookup::HopForm;
use hdr_bits::{Cube, Header};
use net_types::{Config, NoMemory};
use std::alloc::Global;
use std::io;

const INTERFACES: &str = "interface E0
 ip address 10.0.0.1 255.255.255.0
 ip address 10.0.9.1 255.255.255.0 secondary
interface E1
 ip address 10.0.1.1 255.255.255.252
interface E2
 ip address 10.0.2.0 255.255.255.254
interface E3
 ip address 10.0.3.1 255.255.255.0
 shutdown
interface E4
 ip address 10.0.4.1 255.255.255.0";

const ROUTES: &str = "ip route 0.0.0.0 0.0.0.0 10.0.1.2
ip route 192.0.2.0 255.255.255.0 Null0
ip route 10.0.0.1 255.255.255.255 Null0
ip route 172.16.0.0 255.255.0.0 10.0.1.2
ip route 172.16.0.0 255.255.0.0 10.0.4.2
ip route 172.17.0.0 255.255.0.0 172.16.5.5
ip route 224.0.0.0 255.0.0.0 10.0.1.2";

const DESTINATIONS: [u32; 19] = [
    // Its own addresses, also where a route has it and where it is a secondary one.
    0x0a00_0001,
    0x0a00_0901,
    0x0a00_0101,
    0x0a00_0200,
    0x0a00_0401,
    // Directed broadcasts, of which a subnet of length 31 has none, nor one of an interface that is shut down.
    0x0a00_00ff,
    0x0a00_09ff,
    0x0a00_0103,
    0x0a00_0201,
    0x0a00_03ff,
    0x0a00_0301,
    // Reserved destinations, whatever the routes say.
    0xe000_0000,
    0xffff_ffff,
    0xdfff_ffff,
    // Lookups.
    0x0a00_0900,
    0x0808_0808,
    0xc000_0201,
    0xac10_0001,
    0xac11_0001,
];

/// Prints what the device does with each of the destinations.
pub(crate) fn print_destinations(rt: &HostRuntime) -> io::Result<()> {
    match read_lines(rt.alloc(), INTERFACES, ROUTES) {
        Some(config) => print_each(rt, &config),
        None => println!(rt; "refused: {ROUTES}"),
    }
}

fn print_each(rt: &HostRuntime, config: &Config) -> io::Result<()> {
    for address in DESTINATIONS {
        print_destination(rt, config, address)?;
    }
    Ok(())
}

/// Prints whether a device of forty interfaces has the same function when it is added again: each of its fates is found by its
/// hash.
pub(crate) fn print_again(rt: &HostRuntime) -> io::Result<()> {
    let same = is_same_again(rt.alloc()).unwrap_or(false);
    println!(rt; "a device of forty interfaces again: {same}")
}

fn is_same_again(alloc: Global) -> Result<bool, NoMemory> {
    match forty_interfaces(alloc) {
        Some(config) => is_added_again(alloc, &config),
        None => Ok(false),
    }
}

fn is_added_again(alloc: Global, config: &Config) -> Result<bool, NoMemory> {
    let mut diagrams = Diagrams::new(alloc)?;
    let mut fates = Fates::new(alloc);
    is_again_in(alloc, &mut diagrams, &mut fates, config)
}

// Whether the device has one function in these tables when it is added twice.
fn is_again_in(
    alloc: Global,
    diagrams: &mut Diagrams,
    fates: &mut Fates,
    config: &Config,
) -> Result<bool, NoMemory> {
    let first = add_device(alloc, diagrams, fates, config)?;
    let again = add_device(alloc, diagrams, fates, config)?;
    Ok(diagrams.same(first, again))
}

fn forty_interfaces(alloc: Global) -> Option<Config> {
    let mut text = format!(in alloc; "").ok()?;
    for i in 0..40u32 {
        text = format!(in alloc;
            "{text}interface E{i}\n ip address 10.1.{i}.1 255.255.255.0\n"
        ).ok()?;
    }
    read_lines(alloc, &text, "")
}

fn print_destination(rt: &HostRuntime, config: &Config, address: u32) -> io::Result<()> {
    let [a, b, c, d] = address.to_be_bytes();
    print!(rt; "{a}.{b}.{c}.{d}")?;
    let mut fates = Fates::new(rt.alloc());
    let number = number_of(rt.alloc(), &mut fates, config, address);
    print_fate(rt, number.ok().flatten().and_then(|n| fates.get(n)))
}

// The number of what the device does with the destination, as its diagram gives it.
fn number_of(
    alloc: Global,
    fates: &mut Fates,
    config: &Config,
    address: u32,
) -> Result<Option<u32>, NoMemory> {
    let mut diagrams = Diagrams::new(alloc)?;
    number_in(alloc, &mut diagrams, fates, config, address)
}

fn number_in(
    alloc: Global,
    diagrams: &mut Diagrams,
    fates: &mut Fates,
    config: &Config,
    address: u32,
) -> Result<Option<u32>, NoMemory> {
    let function = add_device(alloc, diagrams, fates, config)?;
    let header = Header {
        dst: address,
        ..Cube::all().least()
    };
    Ok(diagrams.lookup(function, &header))
}

fn print_fate(rt: &HostRuntime, fate: Option<&Fate>) -> io::Result<()> {
    match fate {
        None => println!(rt; " ?"),
        Some(Fate::Dropped) => println!(rt; " is dropped"),
        Some(Fate::Own { position }) => println!(rt; " is its own, of interface {position}"),
        Some(Fate::Sent { choices }) => print_sent(rt, choices.as_slice()),
    }
}

fn print_sent(rt: &HostRuntime, choices: &[HopForm]) -> io::Result<()> {
    print!(rt; " is sent:")?;
    for form in choices {
        print_form(rt, form)?;
    }
    println!(rt; "")
}

fn print_form(rt: &HostRuntime, form: &HopForm) -> io::Result<()> {
    match form {
        HopForm::Discard => print!(rt; " drop"),
        HopForm::Direct { name } => print!(rt; " {}", shown(name)),
        HopForm::Via { name, next } => {
            let [a, b, c, d] = next.to_be_bytes();
            print!(rt; " {} {a}.{b}.{c}.{d}", shown(name))
        }
    }
}
