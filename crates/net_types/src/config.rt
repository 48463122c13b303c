//! What a router's configuration says: its interfaces, static routes, access lists and rules of address translation.

ghost use Rattle.std.specs.Prelude.{◌≤◌};

use crate::{List, Text};

/// A router's configuration: what its accepted lines say, in their order.
pub struct Config {
    /// The device name.
    pub hostname: Text,
    /// In the order of the first line of each.
    pub interfaces: List<Interface>,
    /// The written static routes, in the order of their lines. Connected routes follow from the interfaces.
    pub routes: List<Route>,
    /// In the order of the first line of each.
    pub lists: List<AccessList>,
    /// The static rules of address translation, in the order of their lines.
    pub nat: List<NatRule>,
}

impl Drop for Config {
    fn drop(self) {
        let Config {
            hostname: _,
            interfaces: _,
            routes: _,
            lists: _,
            nat: _,
        } = self;
    }
}

/// An interface of a router.
///
/// It is IP-enabled exactly where it isn't shut and has at least one address.
#[derive(Drop)]
pub struct Interface {
    pub name: Text,
    /// The primary address.
    pub primary: Option<Subnet>,
    /// The secondary addresses, in order. They may stand without a primary one.
    pub secondary: List<Subnet>,
    /// Whether it is shut down.
    pub shut: bool,
    /// The access list that an arriving packet is tried against.
    pub input: Option<Text>,
    /// The access list that a leaving packet is tried against.
    pub output: Option<Text>,
    pub side: Side,
}

/// An IPv4 address with the length of its network part, 0 to 32.
///
/// As an interface's address it keeps all bits of the address; as the prefix of a route it has none after its length.
#[derive(Clone, Copy, Debug, PartialEq, Eq)]
pub struct Subnet {
    pub address: u32,
    pub length: u8,
    pub ghost in_range: { length ≤ 32 },
}

/// The side of address translation on which an interface is.
#[derive(Clone, Copy, Debug, PartialEq, Eq)]
pub enum Side {
    Neither,
    Inside,
    Outside,
}

/// A static route, or a connected one.
///
/// The prefix has no bit after its length. That is kept by those who make a route, as the reader of
/// configurations: which route of a prefix is installed is told by this address and length.
#[derive(Drop)]
pub struct Route {
    pub prefix: Subnet,
    pub exit: RouteExit,
    /// The administrative distance: 0 for a connected route, 1 to 255 for a static one.
    pub distance: u8,
}

/// Where a route leads.
#[derive(Drop)]
pub enum RouteExit {
    /// To `Null0`: what it carries is dropped.
    Null,
    /// Out of an interface, with the packet's own destination as the next address.
    Port { name: Text },
    /// Out of an interface, to a next hop.
    Both { name: Text, next: u32 },
    /// To a next hop, which is looked up in turn.
    Next { next: u32 },
}

/// A standard or extended access list, its entries rising by sequence number.
#[derive(Drop)]
pub struct AccessList {
    pub name: Text,
    pub extended: bool,
    pub entries: List<Entry>,
}

/// An entry of an access list.
#[derive(Drop)]
pub struct Entry {
    /// Its sequence number, 1 to 2147483647.
    pub sequence: u32,
    /// Whether it permits what it matches, or denies it.
    pub permit: bool,
    /// The IP protocol number, or none for any.
    pub proto: Option<u8>,
    pub src: Masked,
    pub sport: PortTest,
    pub dst: Masked,
    pub dport: PortTest,
    pub icmp: IcmpTest,
    pub flags: FlagTest,
}

/// An address with a wildcard mask: bits under a 1 of `wild` don't count.
///
/// The value is 0 under `wild`. That is kept by those who make one, as the reader of configurations; what an
/// entry matches doesn't depend on it.
#[derive(Clone, Copy, Debug, PartialEq, Eq)]
pub struct Masked {
    pub value: u32,
    pub wild: u32,
}

/// A test of a TCP or UDP port.
#[derive(Drop)]
pub enum PortTest {
    Any,
    /// One of these ports.
    Eq { ports: List<u16> },
    /// Every port but this one.
    Neq { port: u16 },
    /// A port above this one.
    Gt { port: u16 },
    /// A port below this one.
    Lt { port: u16 },
    /// A port from `low` to `high`, both included; none where `low` is above `high`.
    Range { low: u16, high: u16 },
}

/// A test of the ICMP type and code, which stand where a header has its source port, as `type * 256 + code`.
#[derive(Clone, Copy, Debug, PartialEq, Eq)]
pub enum IcmpTest {
    Any,
    /// This type, with any code.
    Kind { kind: u8 },
    /// This type and code.
    Exact { kind: u8, code: u8 },
}

/// A test of the TCP flags, as masks of FIN 1, SYN 2, RST 4, PSH 8, ACK 16 and URG 32.
#[derive(Clone, Copy, Debug, PartialEq, Eq)]
pub enum FlagTest {
    Any,
    /// One flag of `set` is 1, or one of `clear` is 0.
    AnyOf { set: u8, clear: u8 },
    /// Each flag of `set` is 1, and each of `clear` is 0.
    AllOf { set: u8, clear: u8 },
}

/// A rule of static address translation, between the inside (local) and the outside (global).
#[derive(Clone, Copy, Debug, PartialEq, Eq)]
pub struct NatRule {
    pub kind: NatKind,
    pub local: u32,
    /// The local port; 0 in a plain and in an outer rule.
    pub local_port: u16,
    pub global: u32,
    /// The global port; 0 in a plain and in an outer rule.
    pub global_port: u16,
}

/// What a rule of address translation translates.
#[derive(Clone, Copy, Debug, PartialEq, Eq)]
pub enum NatKind {
    /// The address of a host inside, for every protocol and port.
    Plain,
    /// The address and a TCP port of a host inside.
    Tcp,
    /// The address and a UDP port of a host inside.
    Udp,
    /// The address of a host outside, for every protocol and port.
    Outer,
}

/// A configuration with the file that it was read from.
#[derive(Drop)]
pub struct Loaded {
    /// The file's name.
    pub file: Text,
    pub config: Config,
    /// The count of lines that were passed over.
    pub passed: u32,
}
