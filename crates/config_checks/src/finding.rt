//! Findings about the configuration of one router: about its lists, its next hops and its translation.

use net_types::{Masked, Subnet, Text};

/// The packets of an interface that a list is tried against.
#[derive(Clone, Copy, Debug, PartialEq, Eq)]
pub enum Direction {
    /// Those that arrive.
    Input,
    /// Those that leave.
    Output,
}

/// What an entry of a list compares with an address.
#[derive(Clone, Copy, Debug, PartialEq, Eq)]
pub enum AddressField {
    Source,
    Destination,
}

/// What is odd in a configuration, though the rules say what becomes of each packet.
#[derive(Drop)]
pub enum ConfigFinding {
    /// An interface names a list that isn't there: every packet passes.
    NoList {
        interface: Text,
        direction: Direction,
        list: Text,
    },
    /// An interface names a list that has no entry: every packet passes.
    EmptyList {
        interface: Text,
        direction: Direction,
        list: Text,
    },
    /// No interface names the list, so that it decides about no packet.
    UnusedList {
        list: Text,
    },
    /// A wildcard is what a mask of 1 to 31 bits is, so that the first bits of an address don't count and the last ones do.
    MaskAsWildcard {
        list: Text,
        sequence: u32,
        field: AddressField,
        address: Masked,
    },
    /// The next hop of a route is an address of the device itself: the route is never valid.
    NextIsOwn {
        prefix: Subnet,
        next: u32,
    },
    /// No route holds the next hop of a route that names no interface: the route isn't valid, and carries no packet.
    NextNowhere {
        prefix: Subnet,
        next: u32,
    },
    /// Only default routes hold the next hop of a route that names no interface: what it carries goes where these lead, and
    /// where it is a default itself, one of its choices is a drop.
    NextByDefault {
        prefix: Subnet,
        next: u32,
    },
    /// The next hop of a route that names no interface is looked up in routes of the very prefix of the route: where it is
    /// installed, its next hop leads to itself, and one of its choices is a drop.
    NextByItself {
        prefix: Subnet,
        next: u32,
    },
    /// The interface of a route is IP-enabled and none of its subnets holds the next hop: what the route carries is sent out
    /// of the interface all the same, on a lan to an address that an end seldom has.
    NextElsewhere {
        prefix: Subnet,
        interface: Text,
        next: u32,
    },
    /// Another route of the prefix has a greater distance, and a written route by another way holds the next hop of this one:
    /// where the subnet of the next hop is gone and that route is valid, this one stays valid, and the other doesn't take over.
    NeverFloats {
        prefix: Subnet,
        distance: u8,
        next: u32,
    },
    /// The next hop of a route is an address to which the device drops every packet, a multicast or reserved address or a
    /// broadcast of a subnet of its own: no neighbour has it.
    NextIsBroadcast {
        prefix: Subnet,
        next: u32,
    },
    /// A route names an interface alone, and the interface has a subnet with room for more than two routers: who answers there
    /// for the destination takes the packet.
    PortAlone {
        prefix: Subnet,
        interface: Text,
    },
    /// An interface is shut and a subinterface of it isn't: a router takes that down too.
    ShutAbove {
        main: Text,
        below: Text,
    },
    /// There are rules of translation, and no IP-enabled interface is inside: no packet is translated from inside.
    NoInside,
    /// There are rules of translation, and no IP-enabled interface is outside: no packet is translated.
    NoOutside,
    /// The address of a host inside is translated, and no route leads to it out of an interface inside: what it sends doesn't
    /// arrive there.
    NotInside {
        local: u32,
    },
    /// The address of a host outside is translated, and no route leads to it out of an interface outside.
    NotOutside {
        global: u32,
    },
}
