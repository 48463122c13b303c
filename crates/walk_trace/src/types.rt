//! A trace, as a value.

use hdr_bits::Header;
use net_types::{Label, List, Outcome, Place, Text, Verdict};

/// What becomes of one packet, with the reasons.
pub struct Trace {
    /// The numbered states in the order of their numbers, from 1: the first is the ingress, with the packet's header.
    pub states: List<TraceState>,
    /// The label of the packet's header.
    pub outcome: Label,
}

impl Drop for Trace {
    fn drop(self) {
        let Trace {
            states: _,
            outcome: _,
        } = self;
    }
}

/// What a device does with the packet when it arrives at a place with a header.
pub struct TraceState {
    pub place: Place,
    pub header: Header,
    /// The input list that was tried; none where everything is passed, and at `Closed`.
    pub input: Option<Text>,
    /// What the input list says; `Passed` at `Closed`.
    pub verdict: Verdict,
    /// The address that a plain or port rule wrote as the destination, from outside.
    pub dst: Option<u32>,
    /// The port that a port rule wrote with it.
    pub dport: Option<u16>,
    /// The address that an outer rule wrote as the source, from outside.
    pub src: Option<u32>,
    pub end: TraceEnd,
}

impl Drop for TraceState {
    fn drop(self) {
        let TraceState {
            place: _,
            header: _,
            input: _,
            verdict: _,
            dst: _,
            dport: _,
            src: _,
            end: _,
        } = self;
    }
}

/// How far the packet gets in a device.
#[derive(Drop)]
pub enum TraceEnd {
    /// The place is absent, or its interface isn't IP-enabled.
    Closed,
    /// The input list denies it.
    Denied,
    /// Its destination is multicast, reserved, or a directed broadcast of an IP-enabled interface of the device.
    Broadcast,
    /// Its destination is the device's own address, of the interface at this place.
    Local { place: Place },
    /// The choices of the lookup: a discard first, then by the interface's name and the next address.
    Choices { choices: List<TraceChoice> },
}

/// A choice of a lookup, and what becomes of the packet by it.
#[derive(Drop)]
pub enum TraceChoice {
    /// A drop.
    Discard,
    /// Out of an interface.
    Out {
        place: Place,
        /// The next address.
        next: u32,
        /// The address that a plain or port rule wrote as the source, from inside.
        src: Option<u32>,
        /// The port that a port rule wrote with it.
        sport: Option<u16>,
        /// The address that an outer rule wrote as the destination, from inside.
        dst: Option<u32>,
        /// The output list that was tried; none where everything is passed.
        output: Option<Text>,
        /// What the output list says.
        verdict: Verdict,
        fate: TraceFate,
    },
}

/// What becomes of a packet that is to be sent.
#[derive(Clone, Copy, Debug, PartialEq, Eq)]
pub enum TraceFate {
    /// The output list denies it.
    Denied,
    /// It leaves the network, as this outcome of the packet tells.
    Exit { outcome: Outcome },
    /// An end of the segment that isn't IP-enabled has the next address.
    Lost,
    /// It arrives in the state of this number; none where the state has none, since the TTL ran out.
    Go { state: Option<u64> },
}
