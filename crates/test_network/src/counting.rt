//! How many headers visit other devices by walks of sets than by the region of each header alone.

use crate::edges::{TURNS, edge, has, starts};
use crate::regions::graph_of;
use cube_diagram::Diagrams;
use hdr_bits::Header;
use net_types::NoMemory;
use region_walk::Graph;
use set_walk::DeviceVisitors;
use std::alloc::Global;
use transfer_rel::{Prepared, Version};

// The devices of each plan have lower numbers.
const DEVICES: u32 = 5;

/// What was found.
#[derive(Clone, Copy)]
pub(crate) struct Counted {
    /// Headers that were asked.
    pub(crate) asked: u32,
    /// Those that visit other devices than by the second opinion.
    pub(crate) wrong: u32,
    /// Those that come to the second device.
    pub(crate) second: u32,
}

impl Counted {
    pub(crate) fn none() -> Counted {
        Counted {
            asked: 0,
            wrong: 0,
            second: 0,
        }
    }

    pub(crate) fn with(&self, other: &Counted) -> Counted {
        Counted {
            asked: self.asked.saturating_add(other.asked),
            wrong: self.wrong.saturating_add(other.wrong),
            second: self.second.saturating_add(other.second),
        }
    }

    fn add(&mut self, right: bool, second: bool) {
        self.asked = self.asked.saturating_add(1);
        self.wrong = self.wrong.saturating_add(u32::from(!right));
        self.second = self.second.saturating_add(u32::from(second));
    }
}

/// Two networks, compiled, of which the first is asked under this TTL.
#[derive(Clone, Copy)]
pub(crate) struct Opinion<'a> {
    pub(crate) alloc: Global,
    pub(crate) prepared: &'a Prepared<'a>,
    pub(crate) ttl: u8,
}

impl<'a> Opinion<'a> {
    /// Compares the devices that headers at the edges of the sets visit.
    pub(crate) fn count_visits(
        &self,
        table: &Diagrams,
        visitors: &[DeviceVisitors],
    ) -> Result<Counted, NoMemory> {
        let mut counted = Counted::none();
        for one in visitors {
            let starts = starts(self.alloc, table, one.headers)?;
            self.count_at(table, visitors, &starts, &mut counted);
        }
        Ok(counted)
    }

    // Counts the headers at the edges of one set, which begin with these.
    fn count_at(
        &self,
        table: &Diagrams,
        visitors: &[DeviceVisitors],
        starts: &[Header],
        counted: &mut Counted,
    ) {
        for start in starts {
            for turn in 0..TURNS {
                let header = edge(start, turn);
                let second = comes_to(table, visitors, 1, &header);
                counted.add(self.are_same(table, visitors, &header), second);
            }
        }
    }

    // Whether the walk of the region of this header alone comes to the same devices.
    fn are_same(&self, table: &Diagrams, visitors: &[DeviceVisitors], header: &Header) -> bool {
        match graph_of(self.alloc, self.prepared, Version::Old, header) {
            Some(graph) => self.visits_same(table, visitors, header, &graph),
            None => false,
        }
    }

    fn visits_same(
        &self,
        table: &Diagrams,
        visitors: &[DeviceVisitors],
        header: &Header,
        graph: &Graph,
    ) -> bool {
        let mut same = true;
        for device in 0..DEVICES {
            let found = comes_to(table, visitors, device, header);
            same &= found == graph.visits(self.ttl, device);
        }
        same
    }
}

// Whether the header is in the set of the device.
fn comes_to(table: &Diagrams, visitors: &[DeviceVisitors], device: u32, header: &Header) -> bool {
    visitors.iter().any(|one| one.device == device && has(table, one.headers, header))
}
