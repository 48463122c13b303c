//! What is finished and what is still to be done of a region.

use cube_alg::Region;

/// A finished region: all of its headers have the value.
#[derive(Drop)]
pub struct Leaf<V> {
    pub region: Region,
    pub value: V,
}

/// A region that is open, or is to be opened, under the ticket.
#[derive(Clone, Copy, PartialEq, Eq, Debug)]
pub struct Part {
    pub region: Region,
    pub ticket: u64,
}
