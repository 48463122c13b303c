//! The regions of a cube, and the label of a header by the region that it is alone in.

use crate::networks::INGRESS;
use crate::tables::cube_of;
use hdr_bits::{Cube, Header};
use net_types::Outcome;
use region_walk::{Explored, Graph, explore};
use std::alloc::Global;
use transfer_rel::{Prepared, Version};

/// The one or two outcomes that a header has under a TTL.
#[derive(Clone, Copy)]
pub(crate) struct Wanted {
    pub(crate) ttl: u8,
    pub(crate) first: Outcome,
    pub(crate) second: Option<Outcome>,
}

impl Wanted {
    // Whether the headers of the graph have these outcomes.
    fn is_label_of(&self, alloc: Global, graph: &Graph) -> bool {
        match graph.label(alloc, self.ttl.max(1)) {
            Ok(label) => self.is(label.as_slice()),
            Err(_) => false,
        }
    }

    fn is(&self, outcomes: &[Outcome]) -> bool {
        match outcomes {
            [first] => *first == self.first && self.second.is_none(),
            [first, second] => *first == self.first && self.second == Some(*second),
            _ => false,
        }
    }
}

/// The graph of the header alone. Nothing where there was no memory.
pub(crate) fn graph_of<'a>(
    alloc: Global,
    prepared: &'a Prepared<'a>,
    version: Version,
    header: &Header,
) -> Option<Graph<'a>> {
    let cube = cube_of(header, 0)?;
    match explore(alloc, prepared, version, INGRESS, &cube) {
        Ok(Explored::Whole { graph }) => Some(graph),
        _ => None,
    }
}

/// Two networks, compiled, and the one that is walked.
#[derive(Clone, Copy)]
pub(crate) struct Walks<'a> {
    pub(crate) alloc: Global,
    pub(crate) prepared: &'a Prepared<'a>,
    pub(crate) version: Version,
}

impl<'a> Walks<'a> {
    /// Whether the header has this label.
    pub(crate) fn has_label(&self, header: &Header, wanted: Wanted) -> bool {
        match graph_of(self.alloc, self.prepared, self.version, header) {
            Some(graph) => wanted.is_label_of(self.alloc, &graph),
            None => false,
        }
    }

    /// How many regions the cube has. Nothing where there was no memory, or too many regions.
    pub(crate) fn region_count(&self, cube: &Cube) -> Option<u32> {
        let mut regions = 0u32;
        let mut cubes = vec![in self.alloc; *cube].ok()?;
        for _turn in 0..4096u32 {
            regions = regions.saturating_add(self.take(&mut cubes)?);
            if cubes.is_empty() {
                return Some(regions);
            }
        }
        None
    }

    // Takes the next cube, and tells how many regions it is: one, or none where its halves come in its place.
    fn take(&self, cubes: &mut Vec<Cube>) -> Option<u32> {
        let cube = cubes.pop()?;
        match explore(self.alloc, self.prepared, self.version, INGRESS, &cube) {
            Ok(Explored::Whole { graph: _ }) => Some(1),
            Ok(Explored::Halves { low, high }) => add_halves(cubes, low, high),
            Err(_) => None,
        }
    }
}

fn add_halves(cubes: &mut Vec<Cube>, low: Cube, high: Cube) -> Option<u32> {
    cubes.push(high).ok()?;
    cubes.push(low).ok()?;
    Some(0)
}
