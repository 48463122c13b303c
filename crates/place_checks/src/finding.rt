//! Findings about the links of networks, and in which of the networks each is so.
ghost use Rattle.std.specs.Prelude.{◌≡◌, ◌++◌, ◌∷◌, [], OnOk};

use net_types::{NoMemory, Text};

/// The networks in which something is so, of those that are judged.
#[derive(Clone, Copy, Debug, PartialEq, Eq)]
pub enum Networks {
    Old,
    New,
    Both,
}

/// What is wrong with the links of networks, though no rule refuses it.
///
/// A place is the names of a device and of an interface, and a line is a line of the link table, from 1.
pub enum PlaceFinding {
    /// A line names a place that neither network has, so that what enters or arrives there is dropped.
    Missing {
        line: u32,
        place: (Text, Text),
        /// A place that is there and has the nearest name, in the new network before the old one.
        near: Option<(Text, Text)>,
    },
    /// A line names an interface that is shut: what arrives there is dropped.
    Shut {
        line: u32,
        place: (Text, Text),
        networks: Networks,
    },
    /// A line names an interface that isn't shut and has no address: what arrives there is dropped.
    NoAddress {
        line: u32,
        place: (Text, Text),
        networks: Networks,
    },
    /// An end of a segment has no subnet in common with the first end of it, and both are IP-enabled: routers hand
    /// packets over such a link only by routes out of the interface.
    Apart {
        line: u32,
        place: (Text, Text),
        first: (Text, Text),
        networks: Networks,
    },
    /// An interface has a subnet that the interface of another device has too, and no segment has both: a packet that is sent
    /// out of the one to the other isn't handed over.
    Unlinked {
        place: (Text, Text),
        /// The first interface of that subnet, in the new network where it is so there, else in the old one.
        other: (Text, Text),
        networks: Networks,
    },
}

impl Drop for PlaceFinding {
    fn drop(self) {
        match self {
            PlaceFinding::Missing {
                line: _,
                place: _,
                near: _,
            } => {}
            PlaceFinding::Shut {
                line: _,
                place: _,
                networks: _,
            } => {}
            PlaceFinding::NoAddress {
                line: _,
                place: _,
                networks: _,
            } => {}
            PlaceFinding::Apart {
                line: _,
                place: _,
                first: _,
                networks: _,
            } => {}
            PlaceFinding::Unlinked {
                place: _,
                other: _,
                networks: _,
            } => {}
        }
    }
}

/// Adds a finding.
pub(crate) fn tell(found: &mut Vec<PlaceFinding>, finding: PlaceFinding) -> Result<(), NoMemory>
    ensures { OnOk result (found.new.items ≡ found.old.items ++ finding ∷ []) }
{
    found.push(finding)?;
    Ok(())
}
