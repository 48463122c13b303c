//! Copies of values in memory of their own, each equal to what was copied.

ghost use Rattle.std.specs.Prelude.{◌≡◌, IfOk};

use crate::{
    AccessList, Config, Entry, Hop, Interface, Links, List, Loaded, Names, NatRule, NetDevice,
    Network, NoMemory, Outcome, Place, PortTest, Rib, Route, RouteExit, Row, Section, Segment,
    Subnet, Text,
};
use std::alloc::Global;

/// A value that can be copied into memory of its own.
pub trait Duplicate: Sized {
    /// A value equal to this one.
    fn copy(&self, alloc: Global) -> Result<Self, NoMemory>
        ensures same { IfOk result (λ copy. copy ≡ self.now) };
}

impl Duplicate for u16 {
    fn copy(&self, _alloc: Global) -> Result<u16, NoMemory> {
        Ok(*self)
    }
}

impl Duplicate for u32 {
    fn copy(&self, _alloc: Global) -> Result<u32, NoMemory> {
        Ok(*self)
    }
}

impl Duplicate for Subnet {
    fn copy(&self, _alloc: Global) -> Result<Subnet, NoMemory> {
        Ok(*self)
    }
}

impl Duplicate for NatRule {
    fn copy(&self, _alloc: Global) -> Result<NatRule, NoMemory> {
        Ok(*self)
    }
}

impl Duplicate for Place {
    fn copy(&self, _alloc: Global) -> Result<Place, NoMemory> {
        Ok(*self)
    }
}

impl Duplicate for Outcome {
    fn copy(&self, _alloc: Global) -> Result<Outcome, NoMemory> {
        Ok(*self)
    }
}

fn copy_option(alloc: Global, text: &Option<Text>) -> Result<Option<Text>, NoMemory>
    ensures same { IfOk result (λ copy. copy ≡ text.now) }
{
    match text {
        None => Ok(None),
        Some(text) => Ok(Some(text.copy(alloc)?)),
    }
}

impl Duplicate for RouteExit {
    fn copy(&self, alloc: Global) -> Result<RouteExit, NoMemory> {
        match self {
            RouteExit::Null => Ok(RouteExit::Null),
            RouteExit::Port { name } => Ok(RouteExit::Port {
                name: name.copy(alloc)?,
            }),
            RouteExit::Both { name, next } => Ok(RouteExit::Both {
                name: name.copy(alloc)?,
                next: *next,
            }),
            RouteExit::Next { next } => Ok(RouteExit::Next { next: *next }),
        }
    }
}

impl Duplicate for Route {
    fn copy(&self, alloc: Global) -> Result<Route, NoMemory> {
        Ok(Route {
            prefix: self.prefix,
            exit: self.exit.copy(alloc)?,
            distance: self.distance,
        })
    }
}

impl Duplicate for PortTest {
    fn copy(&self, alloc: Global) -> Result<PortTest, NoMemory> {
        match self {
            PortTest::Any => Ok(PortTest::Any),
            PortTest::Eq { ports } => Ok(PortTest::Eq {
                ports: ports.copy_items(alloc)?,
            }),
            PortTest::Neq { port } => Ok(PortTest::Neq { port: *port }),
            PortTest::Gt { port } => Ok(PortTest::Gt { port: *port }),
            PortTest::Lt { port } => Ok(PortTest::Lt { port: *port }),
            PortTest::Range { low, high } => Ok(PortTest::Range {
                low: *low,
                high: *high,
            }),
        }
    }
}

impl Duplicate for Entry {
    fn copy(&self, alloc: Global) -> Result<Entry, NoMemory> {
        Ok(Entry {
            sequence: self.sequence,
            permit: self.permit,
            proto: self.proto,
            src: self.src,
            sport: self.sport.copy(alloc)?,
            dst: self.dst,
            dport: self.dport.copy(alloc)?,
            icmp: self.icmp,
            flags: self.flags,
        })
    }
}

impl Duplicate for AccessList {
    fn copy(&self, alloc: Global) -> Result<AccessList, NoMemory> {
        Ok(AccessList {
            name: self.name.copy(alloc)?,
            extended: self.extended,
            entries: self.entries.copy_items(alloc)?,
        })
    }
}

impl Duplicate for Interface {
    fn copy(&self, alloc: Global) -> Result<Interface, NoMemory> {
        Ok(Interface {
            name: self.name.copy(alloc)?,
            primary: self.primary,
            secondary: self.secondary.copy_items(alloc)?,
            shut: self.shut,
            input: copy_option(alloc, &self.input)?,
            output: copy_option(alloc, &self.output)?,
            side: self.side,
        })
    }
}

impl Duplicate for Config {
    fn copy(&self, alloc: Global) -> Result<Config, NoMemory> {
        Ok(Config {
            hostname: self.hostname.copy(alloc)?,
            interfaces: self.interfaces.copy_items(alloc)?,
            routes: self.routes.copy_items(alloc)?,
            lists: self.lists.copy_items(alloc)?,
            nat: self.nat.copy_items(alloc)?,
        })
    }
}

impl Duplicate for Loaded {
    fn copy(&self, alloc: Global) -> Result<Loaded, NoMemory> {
        Ok(Loaded {
            file: self.file.copy(alloc)?,
            config: self.config.copy(alloc)?,
            passed: self.passed,
        })
    }
}

impl Duplicate for Hop {
    fn copy(&self, alloc: Global) -> Result<Hop, NoMemory> {
        match self {
            Hop::Discard => Ok(Hop::Discard),
            Hop::Out { name, next } => Ok(Hop::Out {
                name: name.copy(alloc)?,
                next: *next,
            }),
        }
    }
}

impl Duplicate for Rib {
    fn copy(&self, alloc: Global) -> Result<Rib, NoMemory> {
        Ok(Rib {
            routes: self.routes.copy_items(alloc)?,
            count: self.count,
        })
    }
}

impl Duplicate for Names {
    fn copy(&self, alloc: Global) -> Result<Names, NoMemory> {
        Ok(Names {
            texts: self.texts.copy_items(alloc)?,
        })
    }
}

impl Duplicate for NetDevice {
    fn copy(&self, alloc: Global) -> Result<NetDevice, NoMemory> {
        Ok(NetDevice {
            name: self.name,
            config: self.config.copy(alloc)?,
            numbers: self.numbers.copy_items(alloc)?,
        })
    }
}

impl Duplicate for Network {
    fn copy(&self, alloc: Global) -> Result<Network, NoMemory> {
        Ok(Network {
            devices: self.devices.copy_items(alloc)?,
        })
    }
}

impl Duplicate for Segment {
    fn copy(&self, alloc: Global) -> Result<Segment, NoMemory> {
        Ok(Segment {
            lan: self.lan,
            ends: self.ends.copy_items(alloc)?,
        })
    }
}

impl Duplicate for Links {
    fn copy(&self, alloc: Global) -> Result<Links, NoMemory> {
        Ok(Links {
            segments: self.segments.copy_items(alloc)?,
            ingress: self.ingress.copy_items(alloc)?,
        })
    }
}

impl Duplicate for Row {
    fn copy(&self, alloc: Global) -> Result<Row, NoMemory> {
        Ok(Row {
            cube: self.cube,
            old: self.old.copy(alloc)?,
            new: self.new.copy(alloc)?,
        })
    }
}

impl Duplicate for Section {
    fn copy(&self, alloc: Global) -> Result<Section, NoMemory> {
        Ok(Section {
            place: self.place,
            rows: self.rows.copy_items(alloc)?,
        })
    }
}
