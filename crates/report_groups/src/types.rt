//! Groups as values: the patterns that they are made of, and what a person reads of them.

ghost use Rattle.std.specs.Prelude.{◌≡◌, length};

use net_types::{List, Outcome};

/// Some values of a field of headers: those that have these digits at these bits.
#[derive(Clone, Copy, Debug, PartialEq, Eq, PartialOrd, Ord, Hash)]
pub struct Pattern {
    /// The bits that are meant.
    pub fixed: u32,
    /// The digits at those bits, and 0 at each other one.
    pub bits: u32,
}

/// Rows of one ingress with equal outcomes, whose cubes are all that the patterns of the fields make.
///
/// It stands for a row for each choice of one pattern of each field.
pub struct Group {
    /// The patterns of the six fields of a header, in its order: dst, src, proto, dport, sport, flags.
    pub fields: List<List<Pattern>>,
    /// The outcomes in the old network.
    pub old: List<Outcome>,
    /// The outcomes in the new network.
    pub new: List<Outcome>,
}

impl Drop for Group {
    fn drop(self) {
        let Group {
            fields: _,
            old: _,
            new: _,
        } = self;
    }
}

/// A group as a person reads it.
pub struct Entry {
    /// What the change does to its packets.
    pub change: Change,
    /// Its headers.
    pub shown: Shown,
    /// The rows that it stands for.
    pub rows: u64,
    pub group: Group,
}

impl Drop for Entry {
    fn drop(self) {
        let Entry {
            change: _,
            shown: _,
            rows: _,
            group: _,
        } = self;
    }
}

/// A group, with lists that can be taken out.
#[derive(Drop, PartialEq, Eq, Hash)]
pub(crate) struct Draft {
    pub(crate) fields: Vec<Vec<Pattern>>,
    pub(crate) before: Vec<Outcome>,
    pub(crate) after: Vec<Outcome>,
    ghost six: { length fields.items ≡ 6 },
}

/// Values from `low` to `high`, both included.
#[derive(Clone, Copy, Debug, PartialEq, Eq)]
pub struct Span {
    pub low: u32,
    pub high: u32,
}

/// Some values of a field, as a person reads them.
#[derive(Clone, Copy, Debug, PartialEq, Eq)]
pub enum Part {
    /// Values that follow each other.
    Run(Span),
    /// What is given by its bits.
    Masked(Pattern),
}

/// The values of a field as a person reads them: those of its parts, or all but these.
pub struct Values {
    /// Whether all values are meant but those of the parts.
    pub negated: bool,
    pub parts: List<Part>,
}

impl Drop for Values {
    fn drop(self) {
        let Values {
            negated: _,
            parts: _,
        } = self;
    }
}

/// TCP's flags as a person reads them.
#[derive(Drop)]
pub enum Flags {
    /// ACK or RST is set, as an entry with `established` asks.
    Established,
    /// Neither is.
    NotEstablished,
    /// Those that match a pattern.
    Matching(List<Pattern>),
}

/// The six fields of a group as a person reads them.
pub struct Shown {
    pub dst: Values,
    pub src: Values,
    pub proto: Values,
    pub dport: Values,
    pub sport: Values,
    pub flags: Flags,
}

impl Drop for Shown {
    fn drop(self) {
        let Shown {
            dst: _,
            src: _,
            proto: _,
            dport: _,
            sport: _,
            flags: _,
        } = self;
    }
}

/// What a change does to packets, from the most feared to the least.
#[derive(Clone, Copy, Debug, PartialEq, Eq)]
pub enum Change {
    /// They go round in a loop until they expire.
    Loops,
    /// They got through, and no longer do.
    Closes,
    /// They get through now, and didn't.
    Opens,
    /// They get through on some of their ways: on some they are lost, in one network only.
    Sometimes,
    /// They get through to where they did, with other addresses or ports.
    Translated,
    /// They get through elsewhere.
    Moves,
    /// They go round no more, and get no further than before.
    LoopGone,
}
