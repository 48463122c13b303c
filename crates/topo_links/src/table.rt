//! Link tables as values: their lines with the ends, and why a table is refused.

ghost use Rattle.std.specs.Prelude.{◌≡◌};
ghost use Rattle.topo_links.specs.Refusals.{refusal_text};

use net_types::{List, NoMemory, Text};
use std::alloc::{AllocError, AllocFailed};

/// What a line of a link table says of its ends.
#[derive(Clone, Copy, Debug, PartialEq, Eq)]
pub enum LinkKind {
    /// Two ends are the ends of a point-to-point link.
    P2p,
    /// Two or more ends share a LAN.
    Lan,
    /// At one end packets enter the network.
    Ingress,
}

/// A line of a link table.
///
/// In a table that was read, a `P2p` line has two ends, a `Lan` line two or more, and an `Ingress` line one.
#[derive(Drop)]
pub struct LinkLine {
    /// The line's place in the text, from 1.
    pub line: u32,
    pub kind: LinkKind,
    /// The ends in their order, each as the names of its device and its interface.
    pub ends: List<(Text, Text)>,
}

/// The lines of a link table in their order, without blank lines and comments.
pub struct LinkTable {
    pub lines: List<LinkLine>,
}

impl Drop for LinkTable {
    fn drop(self) {
        let LinkTable { lines: _ } = self;
    }
}

/// Why a link table is refused.
#[derive(Clone, Copy, Debug, PartialEq, Eq)]
pub enum LinkRefusal {
    /// An unknown first word, or a word too many.
    BadWord,
    /// The line ends too early.
    MissingWord,
    /// The end stands already on a segment, or the ingress is named already.
    EndTaken,
    /// No line is an `ingress` line.
    NoIngress,
    /// A device that is in neither network.
    UnknownDevice,
    /// Two IP-enabled ends of one segment have one address in one of the networks.
    AddressTwice,
}

impl LinkRefusal {
    /// The word that is printed of it.
    pub fn name(self) -> &'static str
        ensures { result.now ≡ refusal_text self }
    {
        match self {
            LinkRefusal::BadWord => "BadWord",
            LinkRefusal::MissingWord => "MissingWord",
            LinkRefusal::EndTaken => "EndTaken",
            LinkRefusal::NoIngress => "NoIngress",
            LinkRefusal::UnknownDevice => "UnknownDevice",
            LinkRefusal::AddressTwice => "AddressTwice",
        }
    }
}

/// Why there is no link table.
#[derive(Drop)]
pub enum LinkFail {
    Refused {
        kind: LinkRefusal,
        /// The line's place in the text, from 1; 0 where the table as a whole is refused.
        line: u32,
        /// The word that shows it, at most its first 64 bytes; empty where a word is missing.
        word: Text,
    },
    NoMemory,
}

impl From<NoMemory> for LinkFail {
    ghost use Rattle.std.specs.Prelude.{◌≡◌};
    ghost use Rattle.topo_links.specs.declared.table.LinkFail.TheVariants as fail;

    ghost from_gives = { λ _ e. e ≡ fail.NoMemory };

    fn from(_: NoMemory) -> LinkFail {
        LinkFail::NoMemory
    }
}

impl From<AllocError> for LinkFail {
    ghost use Rattle.std.specs.Prelude.{◌≡◌};
    ghost use Rattle.topo_links.specs.declared.table.LinkFail.TheVariants as fail;

    ghost from_gives = { λ _ e. e ≡ fail.NoMemory };

    fn from(_: AllocError) -> LinkFail {
        LinkFail::NoMemory
    }
}

impl<T: Drop> From<AllocFailed<T>> for LinkFail {
    ghost use Rattle.std.specs.Prelude.{◌≡◌};
    ghost use Rattle.topo_links.specs.declared.table.LinkFail.TheVariants as fail;

    ghost from_gives = { λ _ e. e ≡ fail.NoMemory };

    fn from(_: AllocFailed<T>) -> LinkFail {
        LinkFail::NoMemory
    }
}
