//! A network of devices and their links, what a device does with a packet that arrives, and the rows in which two networks differ.

ghost use Rattle.std.specs.Prelude.{◌≡◌, length};

use crate::{Config, Label, List, Route, Text};
use hdr_bits::{Cube, Header};

/// The routes by which a device forwards.
#[derive(Drop)]
pub struct Rib {
    /// The installed routes, connected ones as a `Port` of distance 0.
    pub routes: List<Route>,
    /// How many routes the device has, installed or not: a lookup of more steps in a row is a drop.
    pub count: u64,
}

/// What an access list says of a header.
#[derive(Clone, Copy, Debug, PartialEq, Eq)]
pub enum Verdict {
    /// There is no list, or it has no entry: everything passes.
    Passed,
    /// The entry with this sequence number permits it.
    Permit { sequence: u32 },
    /// The entry with this sequence number denies it.
    Deny { sequence: u32 },
    /// No entry matches: the end of the list denies it.
    DenyEnd,
}

/// A choice that a forwarding lookup gives.
#[derive(Drop)]
pub enum Hop {
    /// A drop.
    Discard,
    /// Out of the interface of this name, with this next address.
    Out { name: Text, next: u32 },
}

/// Names of devices and interfaces, in the order of their bytes, each once. A name's number is its position.
pub struct Names {
    pub texts: List<Text>,
}

impl Drop for Names {
    fn drop(self) {
        let Names { texts: _ } = self;
    }
}

/// An interface of a device, by the numbers of their names.
///
/// Places are ordered by device, then by interface, as their names are by bytes.
#[derive(Clone, Copy, Debug, PartialEq, Eq, PartialOrd, Ord, Hash)]
pub struct Place {
    pub device: u32,
    pub interface: u32,
}

/// A device of a network.
#[derive(Drop)]
pub struct NetDevice {
    /// The number of its name.
    pub name: u32,
    pub config: Config,
    /// The numbers of the names of the configuration's interfaces, in the same order.
    pub numbers: List<u32>,
    pub ghost numbered: { length numbers ≡ length config.interfaces },
}

/// The devices of a network, one of each name.
pub struct Network {
    pub devices: List<NetDevice>,
}

impl Drop for Network {
    fn drop(self) {
        let Network { devices: _ } = self;
    }
}

/// Interfaces that reach one another over a link.
#[derive(Drop)]
pub struct Segment {
    /// Whether a packet goes to the end that has the next address. On a point-to-point link it goes to the other end.
    pub lan: bool,
    pub ends: List<Place>,
}

/// How places are linked, and where packets enter.
pub struct Links {
    pub segments: List<Segment>,
    /// The places where packets enter the network, in the order of the link table.
    pub ingress: List<Place>,
}

impl Drop for Links {
    fn drop(self) {
        let Links {
            segments: _,
            ingress: _,
        } = self;
    }
}

/// A packet between two devices: the place where it arrives, and the header with which it does.
#[derive(Clone, Copy, Debug, PartialEq, Eq)]
pub struct State {
    pub place: Place,
    pub header: Header,
}

/// What a device does with a packet that arrives, apart from the TTL.
#[derive(Clone, Copy, Debug, PartialEq, Eq)]
pub enum Move {
    /// It is dropped before the TTL is looked at.
    Drop,
    /// It is for the device itself, at the interface that has its destination address.
    Local { place: Place },
    /// It is dropped after the TTL was looked at: at arrival with TTL 1 it expires.
    Lost,
    /// It leaves the network at a place, with this header. At arrival with TTL 1 it expires.
    Exit { place: Place, header: Header },
    /// It goes on to a place, with this header. At arrival with TTL 1 it expires.
    Go { place: Place, header: Header },
}

/// A cube of headers that two networks treat differently, with what each of the two does with them.
pub struct Row {
    pub cube: Cube,
    pub old: Label,
    pub new: Label,
}

impl Drop for Row {
    fn drop(self) {
        let Row {
            cube: _,
            old: _,
            new: _,
        } = self;
    }
}

/// The rows of one ingress.
pub struct Section {
    /// The ingress.
    pub place: Place,
    pub rows: List<Row>,
}

impl Drop for Section {
    fn drop(self) {
        let Section { place: _, rows: _ } = self;
    }
}
