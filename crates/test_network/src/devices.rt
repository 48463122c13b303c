//! Devices that differ in one thing each: each is found equal to one that is read of the same text, and to its copy. That no other is
//! found so is proved.

use crate::read::read;
use device_equality::same_device;
use net_types::{Duplicate, List, NetDevice};
use std::alloc::Global;
use std::io;

/// What is written of the plain device.
const LINES: [&str; 13] = [
    "hostname R1",
    "interface Ethernet0",
    " ip address 10.0.0.1 255.255.255.252",
    " ip address 10.9.0.1 255.255.255.0 secondary",
    " no shutdown",
    " ip access-group 101 in",
    " no ip nat inside",
    " ip access-group 102 out",
    "ip route 172.16.0.0 255.255.0.0 Ethernet0 10.0.0.2",
    "ip access-list extended 101",
    " 10 permit tcp any any",
    "ip access-list extended 102",
    "ip nat inside source static 10.0.0.5 203.0.113.5",
];

/// How a device differs from the plain one.
#[derive(Clone, Copy)]
enum Change {
    /// Its name has another number.
    Name,
    /// Its interface has another number.
    Number,
    /// This text stands in place of the line with this index.
    Line { index: usize, text: &'static str },
}

/// Lines that are changed, each alone. The first change is none.
const LINES_CHANGED: [(usize, &str); 38] = [
    (0, "hostname R1"),
    (0, "hostname R2"),
    (2, " no ip address"),
    (2, " ip address 10.0.0.2 255.255.255.252"),
    (2, " ip address 10.0.0.1 255.255.255.0"),
    (3, ""),
    (3, " ip address 10.9.0.2 255.255.255.0 secondary"),
    (
        3,
        " ip address 10.9.0.1 255.255.255.0 secondary\n ip address 10.8.0.1 255.255.255.0 secondary",
    ),
    (4, " shutdown"),
    (5, ""),
    (5, " ip access-group 102 in"),
    (6, " ip nat inside"),
    (6, " ip nat outside"),
    (7, ""),
    (7, " ip access-group 101 out"),
    (8, ""),
    (8, "ip route 172.17.0.0 255.255.0.0 Ethernet0 10.0.0.2"),
    (8, "ip route 172.16.0.0 255.255.255.0 Ethernet0 10.0.0.2"),
    (8, "ip route 172.16.0.0 255.255.0.0 Ethernet0 10.0.0.2 2"),
    (8, "ip route 172.16.0.0 255.255.0.0 Ethernet0 10.0.0.3"),
    (8, "ip route 172.16.0.0 255.255.0.0 10.0.0.2"),
    (8, "ip route 172.16.0.0 255.255.0.0 Ethernet0"),
    (8, "ip route 172.16.0.0 255.255.0.0 Null0"),
    (10, ""),
    (10, " 20 permit tcp any any"),
    (10, " 10 deny tcp any any"),
    (10, " 10 permit udp any any"),
    (10, " 10 permit tcp host 10.0.0.9 any"),
    (10, " 10 permit tcp any host 10.0.0.9"),
    (10, " 10 permit tcp any eq 80 any"),
    (10, " 10 permit tcp any any eq 80"),
    (10, " 10 permit tcp any any neq 80"),
    (10, " 10 permit tcp any any gt 80"),
    (10, " 10 permit tcp any any range 80 90"),
    (10, " 10 permit tcp any any established"),
    (10, " 10 permit tcp any any match-all +ack +rst"),
    (11, "ip access-list extended 103"),
    (
        12,
        "ip nat inside source static tcp 10.0.0.5 80 203.0.113.5 80",
    ),
];

/// Prints how many devices there are and how many of them are found equal to others of the same text and to their copies.
pub(crate) fn print_devices(rt: &HostRuntime) -> io::Result<()> {
    let Some(changes) = changes(rt.alloc()) else {
        return println!(rt; "no memory");
    };
    let devices = changes.len();
    let equal = count_equal(rt.alloc(), &changes);
    println!(rt; "devices {devices}, found equal to their copies {equal}")?;
    Ok(())
}

fn changes(alloc: Global) -> Option<Vec<Change>> {
    let mut changes = Vec::new(alloc);
    changes.push(Change::Name).ok()?;
    changes.push(Change::Number).ok()?;
    for (index, text) in LINES_CHANGED {
        changes.push(Change::Line { index, text }).ok()?;
    }
    Some(changes)
}

// How many of the devices are found equal to another one of the same text.
fn count_equal(alloc: Global, changes: &[Change]) -> usize {
    let equal = changes.iter().filter(|change| is_equal(alloc, **change));
    equal.count()
}

fn is_equal(alloc: Global, change: Change) -> bool {
    match device(alloc, change) {
        Some(one) => equals_another(alloc, change, &one) && equals_copy(alloc, &one),
        None => false,
    }
}

fn equals_another(alloc: Global, change: Change, one: &NetDevice) -> bool {
    match device(alloc, change) {
        Some(again) => same_device(one, &again),
        None => false,
    }
}

fn equals_copy(alloc: Global, one: &NetDevice) -> bool {
    match one.copy(alloc) {
        Ok(copy) => same_device(one, &copy),
        Err(_) => false,
    }
}

fn device(alloc: Global, change: Change) -> Option<NetDevice> {
    let numbers = List::new(numbers(alloc, change)?);
    let text = text_of(alloc, change)?;
    let config = read(alloc, &text)?;
    if numbers.as_slice().len() != config.interfaces.as_slice().len() {
        return None;
    }
    Some(NetDevice {
        name: if matches!(change, Change::Name) { 2 } else { 1 },
        config,
        numbers,
    })
}

fn numbers(alloc: Global, change: Change) -> Option<Vec<u32>> {
    let number = if matches!(change, Change::Number) {
        6
    } else {
        5
    };
    vec![in alloc; number].ok()
}

fn text_of(alloc: Global, change: Change) -> Option<Vec<u8>> {
    let mut text = Vec::new(alloc);
    for (i, plain) in LINES.iter().enumerate() {
        add_line(&mut text, line_of(change, i, plain))?;
    }
    Some(text)
}

fn line_of<'a>(change: Change, i: usize, plain: &'a str) -> &'a str {
    match change {
        Change::Line { index, text } if index == i => text,
        _ => plain,
    }
}

fn add_line(text: &mut Vec<u8>, line: &str) -> Option<()> {
    text.extend_from_slice(line.as_bytes()).ok()?;
    text.push(b'\n').ok()
}
