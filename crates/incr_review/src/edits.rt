//! What is edited, and why an edit is refused.

use ios_lines::Kind;
use net_types::{Entry, NoMemory, Route, Text};
use std::alloc::{AllocError, AllocFailed};

/// A change of one device of a network. The device is named by its number.
#[derive(Drop)]
pub enum Edit {
    /// The entry goes to its place by sequence in the access list of this name.
    AddEntry {
        device: u32,
        list: Text,
        entry: Entry,
    },
    /// The entry of this sequence leaves the access list of this name. A list stays when its last entry goes.
    DropEntry {
        device: u32,
        list: Text,
        sequence: u32,
    },
    /// The static route goes behind all others.
    AddRoute {
        device: u32,
        route: Route,
    },
    /// The first static route that is equal to this one goes.
    DropRoute {
        device: u32,
        route: Route,
    },
}

impl Edit {
    ghost use Rattle.std.specs.Prelude.{◌≡◌};
    ghost use Rattle.incr_review.specs.Edited.{device_of};

    /// The number of the device that it changes.
    pub fn device(&self) -> u32
        ensures { result ≡ device_of self.now }
    {
        match self {
            Edit::AddEntry { device, .. } => *device,
            Edit::DropEntry { device, .. } => *device,
            Edit::AddRoute { device, .. } => *device,
            Edit::DropRoute { device, .. } => *device,
        }
    }
}

/// Why an edit is refused, in the order in which causes are looked for: the first one that is there decides.
///
/// A text of edits is refused with a word, a device, a list or a configuration's kind; an edit itself with a device, a list, a
/// sequence, an entry or a route.
#[derive(Clone, Copy, Debug, PartialEq, Eq)]
pub enum EditKind {
    /// A word of a line that the line doesn't admit.
    BadWord,
    /// The line ends too early.
    MissingWord,
    /// The network has no device of this number.
    UnknownDevice,
    /// The device has no access list of this name.
    UnknownList,
    /// The list has an entry of the added entry's sequence.
    SequenceTaken,
    /// The list has no entry of this sequence.
    NoSuchEntry,
    /// The device has no route that is equal to this one.
    NoSuchRoute,
    /// The words of an entry or of a route are refused as those of a configuration are.
    Config { kind: Kind },
}

/// Why there is no edited network.
#[derive(Clone, Copy, Debug, PartialEq, Eq)]
pub enum EditFail {
    Refused { kind: EditKind },
    NoMemory,
}

impl From<NoMemory> for EditFail {
    ghost use Rattle.std.specs.Prelude.{◌≡◌};
    ghost use Rattle.incr_review.specs.declared.edits.EditFail.TheVariants as fail;

    ghost from_gives = { λ _ e. e ≡ fail.NoMemory };

    fn from(_: NoMemory) -> EditFail {
        EditFail::NoMemory
    }
}

impl From<AllocError> for EditFail {
    ghost use Rattle.std.specs.Prelude.{◌≡◌};
    ghost use Rattle.incr_review.specs.declared.edits.EditFail.TheVariants as fail;

    ghost from_gives = { λ _ e. e ≡ fail.NoMemory };

    fn from(_: AllocError) -> EditFail {
        EditFail::NoMemory
    }
}

impl<T: Drop> From<AllocFailed<T>> for EditFail {
    ghost use Rattle.std.specs.Prelude.{◌≡◌};
    ghost use Rattle.incr_review.specs.declared.edits.EditFail.TheVariants as fail;

    ghost from_gives = { λ _ e. e ≡ fail.NoMemory };

    fn from(_: AllocFailed<T>) -> EditFail {
        EditFail::NoMemory
    }
}
