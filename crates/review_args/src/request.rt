//! What the words of the command line ask for.

use hdr_bits::Header;
use net_types::{NoMemory, Text, Word};

/// Two networks that are compared. Both are wired by `links`; where `new_links` is there, it wires the new one. The TTL is 1 to 255.
#[derive(Drop)]
pub struct Comparison {
    pub old: Word,
    pub new: Word,
    pub links: Word,
    pub new_links: Option<Word>,
    pub ttl: u8,
}

/// Questions about a network that are answered. The TTL is 1 to 255.
#[derive(Drop)]
pub struct Asking {
    pub net: Word,
    pub links: Word,
    pub questions: Word,
    pub ttl: u8,
}

/// A packet by its header and the place where it enters, which is an interface of a device, each by its name.
#[derive(Drop)]
pub struct Packet {
    pub device: Text,
    pub interface: Text,
    pub header: Header,
}

/// A packet that is followed in a network. The TTL is 1 to 255.
#[derive(Drop)]
pub struct Tracing {
    pub net: Word,
    pub links: Word,
    pub packet: Packet,
    pub ttl: u8,
}

/// What the program is asked to do.
#[derive(Drop)]
pub enum Job {
    /// The report on two networks.
    Compare(Comparison),
    /// The answers to the questions of a file.
    Ask(Asking),
    /// The trace of a packet.
    Trace(Tracing),
    /// A line for each configuration of a network.
    Read { net: Word },
    /// How far two networks that are made from a number differ. The size is 2 to 200.
    Gen { number: u64, size: u32 },
}

/// A job, and by how many workers it is to be done: 1 to 64, and one where it has no use for more.
#[derive(Drop)]
pub struct Request {
    pub job: Job,
    pub workers: u32,
}

/// Why the words give no request.
#[derive(Clone, Copy, Debug, PartialEq, Eq)]
pub enum WordsFail {
    /// They are none.
    Refused,
    /// There was no memory.
    NoMemory,
}

impl From<NoMemory> for WordsFail {
    ghost use Rattle.std.specs.Prelude.{◌≡◌};
    ghost use Rattle.review_args.specs.declared.request.WordsFail.TheVariants as fail;

    ghost from_gives = { λ _ e. e ≡ fail.NoMemory };

    fn from(_: NoMemory) -> WordsFail {
        WordsFail::NoMemory
    }
}
