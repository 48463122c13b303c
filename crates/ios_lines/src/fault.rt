//! Why a configuration is refused.

ghost use Rattle.std.specs.Prelude.{◌≡◌};
ghost use Rattle.ios_lines.specs.Kinds.{kind_text};

use net_types::{NoMemory, Text};
use std::alloc::{AllocError, AllocFailed};

/// The kinds of refusals.
#[derive(Clone, Copy, Debug, PartialEq, Eq)]
pub enum Kind {
    /// A command, or a word of a command, that is outside the profile.
    NotCovered,
    /// A word that the command doesn't admit, where it isn't complete yet.
    BadWord,
    /// The command ends too early.
    MissingWord,
    /// A word after a complete command.
    ExtraWord,
    /// A mask that isn't contiguous, or an interface's mask of 0.0.0.0.
    BadMask,
    /// A prefix with a bit after its length.
    HostBits,
    /// The number of an access list that is in no range.
    BadListNumber,
    /// A name that is used for a standard and for an extended list.
    ListKindClash,
    /// A sequence number that the list already has.
    SequenceTaken,
    /// Two rules of address translation with the same local or the same global side.
    NatClash,
    /// No line gives the device a name.
    NoHostname,
    /// Two IP-enabled interfaces have addresses in overlapping subnets.
    OverlapOnDevice,
    /// A route names an interface that no section opened.
    UnknownInterface,
    /// The text of a banner has no end.
    BannerOpen,
}

impl Kind {
    /// The word that is printed of it.
    pub fn name(self) -> &'static str
        ensures { result.now ≡ kind_text self }
    {
        match self {
            Kind::NotCovered => "NotCovered",
            Kind::BadWord => "BadWord",
            Kind::MissingWord => "MissingWord",
            Kind::ExtraWord => "ExtraWord",
            Kind::BadMask => "BadMask",
            Kind::HostBits => "HostBits",
            Kind::BadListNumber => "BadListNumber",
            Kind::ListKindClash => "ListKindClash",
            Kind::SequenceTaken => "SequenceTaken",
            Kind::NatClash => "NatClash",
            Kind::NoHostname => "NoHostname",
            Kind::OverlapOnDevice => "OverlapOnDevice",
            Kind::UnknownInterface => "UnknownInterface",
            Kind::BannerOpen => "BannerOpen",
        }
    }
}

/// What is wrong in a line.
#[derive(Drop)]
pub struct Fault {
    pub kind: Kind,
    pub word: Text,
}

/// Why a text is refused.
#[derive(Drop)]
pub struct Refusal {
    pub kind: Kind,
    /// The line, from 1, or 0 for the whole text.
    pub line: u32,
    /// The word as it is written, at most its first 64 bytes, or nothing.
    pub word: Text,
}

/// Why a reader of words gives no value.
#[derive(Drop)]
pub enum ReadError {
    Fault(Fault),
    NoMemory,
}

impl From<NoMemory> for ReadError {
    ghost use Rattle.ios_lines.specs.declared.fault.ReadError.TheVariants as errors;

    ghost from_gives = { λ _ e. e ≡ errors.NoMemory };

    fn from(_: NoMemory) -> ReadError {
        ReadError::NoMemory
    }
}

impl From<AllocError> for ReadError {
    ghost use Rattle.ios_lines.specs.declared.fault.ReadError.TheVariants as errors;

    ghost from_gives = { λ _ e. e ≡ errors.NoMemory };

    fn from(_: AllocError) -> ReadError {
        ReadError::NoMemory
    }
}

impl<T: Drop> From<AllocFailed<T>> for ReadError {
    ghost use Rattle.ios_lines.specs.declared.fault.ReadError.TheVariants as errors;

    ghost from_gives = { λ _ e. e ≡ errors.NoMemory };

    fn from(_: AllocFailed<T>) -> ReadError {
        ReadError::NoMemory
    }
}
