//! Access lists, for one header: the verdict of the first entry that matches, and each test of an entry.

ghost use Rattle.std.specs.Prelude.{◌≡◌, ◌==◌, Some, find};
ghost use Rattle.std.specs.List.{list_any};
ghost use Rattle.std.specs.Option.{option_copied};
ghost use Rattle.net_types.specs.AccessLists.{is_proto, agrees, meets_port, meets_icmp, meets_flags};
ghost use Rattle.net_types.specs.AccessLists.{matches, verdict_of, entries_verdict, verdict, passes};

use hdr_bits::Header;
use net_types::{AccessList, Entry, FlagTest, IcmpTest, Masked, PortTest, Verdict};

/// What the list says of the header: what its first entry that matches says, and a denial where none does.
/// Without a list, or with one that has no entry, everything passes.
pub fn first_match(list: Option<&AccessList>, h: &Header) -> Verdict
    ensures { result ≡ verdict (option_copied list.entry) h.now }
{
    match list {
        Some(list) => entries_verdict(list.entries.as_slice(), h),
        None => Verdict::Passed,
    }
}

fn entries_verdict(entries: &[Entry], h: &Header) -> Verdict
    ensures { result ≡ entries_verdict entries.now h.now }
{
    if entries.is_empty() {
        return Verdict::Passed;
    }
    match first_entry(entries, h) {
        Some(entry) => said_by(entry),
        None => Verdict::DenyEnd,
    }
}

// The first entry that matches the header.
fn first_entry<'a>(entries: &'a [Entry], h: &Header) -> Option<&'a Entry>
    ensures { option_copied result ≡ find (λ e. matches e h.now) entries.now }
{
    entries.iter().find(|e| matches(e, h))
}

// What an entry says of the headers that it decides.
fn said_by(entry: &Entry) -> Verdict
    ensures { result ≡ verdict_of (Some entry.now) }
{
    let sequence = entry.sequence;
    if entry.permit {
        return Verdict::Permit { sequence };
    }
    Verdict::Deny { sequence }
}

/// Whether the packets of which a list says this go on.
pub fn passes(verdict: Verdict) -> bool
    ensures { result ≡ passes verdict }
{
    match verdict {
        Verdict::Passed => true,
        Verdict::Permit { sequence: _ } => true,
        Verdict::Deny { sequence: _ } => false,
        Verdict::DenyEnd => false,
    }
}

/// Whether the entry matches the header: all its parts do.
pub fn matches(entry: &Entry, h: &Header) -> bool
    ensures { result ≡ matches entry.now h.now }
{
    is_proto(entry.proto, h.proto)
        && agrees(&entry.src, h.src)
        && agrees(&entry.dst, h.dst)
        && meets_port(&entry.sport, h.sport)
        && meets_port(&entry.dport, h.dport)
        && meets_icmp(entry.icmp, h.sport)
        && meets_flags(entry.flags, h.flags)
}

fn is_proto(wanted: Option<u8>, proto: u8) -> bool
    ensures { result ≡ is_proto wanted proto }
{
    match wanted {
        Some(wanted) => wanted == proto,
        None => true,
    }
}

fn agrees(masked: &Masked, address: u32) -> bool
    ensures { result ≡ agrees masked.now address }
{
    address | masked.wild == masked.value | masked.wild
}

fn meets_port(test: &PortTest, port: u16) -> bool
    ensures { result ≡ meets_port test.now port }
{
    match test {
        PortTest::Any => true,
        PortTest::Eq { ports } => has_port(ports.as_slice(), port),
        PortTest::Neq { port: other } => port != *other,
        PortTest::Gt { port: low } => *low < port,
        PortTest::Lt { port: high } => port < *high,
        PortTest::Range { low, high } => *low <= port && port <= *high,
    }
}

fn has_port(ports: &[u16], port: u16) -> bool
    ensures { result ≡ list_any (λ q. q == port) ports.now }
{
    ports.iter().any(|q| *q == port)
}

fn meets_icmp(test: IcmpTest, sport: u16) -> bool
    ensures { result ≡ meets_icmp test sport }
{
    match test {
        IcmpTest::Any => true,
        IcmpTest::Kind { kind } => sport / 256 == u16::from(kind),
        IcmpTest::Exact { kind, code } => sport == u16::from(kind) * 256 + u16::from(code),
    }
}

fn meets_flags(test: FlagTest, flags: u8) -> bool
    ensures { result ≡ meets_flags test flags }
{
    match test {
        FlagTest::Any => true,
        FlagTest::AnyOf { set, clear } => flags & set != 0 || flags & clear != clear,
        FlagTest::AllOf { set, clear } => flags & set == set && flags & clear == 0,
    }
}
