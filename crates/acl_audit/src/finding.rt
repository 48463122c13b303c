//! What an audit finds.

use hdr_bits::Cube;
use net_types::List;

/// What an earlier entry takes of the headers that another one matches.
#[derive(Drop)]
pub struct Taken {
    /// The sequence number of the earlier entry.
    pub sequence: u32,
    /// The rows of the headers that the earlier entry decides, in order; at least one.
    pub rows: List<Cube>,
}

/// What is wrong with an entry.
#[derive(Clone, Copy, Debug, PartialEq, Eq)]
pub enum FindingKind {
    /// It decides no header.
    Dead,
    /// It decides some header, and the list without it passes the same headers.
    Redundant,
}

/// An entry that could go.
#[derive(Drop)]
pub struct Finding {
    /// The sequence number of the entry.
    pub sequence: u32,
    pub kind: FindingKind,
    /// What the entries before it take of its headers, in their order; nothing of those that take none.
    pub taken: List<Taken>,
}
