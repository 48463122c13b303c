//! Static address translation of one header, from outside and from inside, and the rules that match it.

ghost use Rattle.std.specs.Prelude.{◌≡◌, find};
ghost use Rattle.std.specs.Option.{option_copied};
ghost use Rattle.net_types.specs.Translation.{from_outside, from_inside, is_plain, is_port_rule, is_outer};
ghost use Rattle.net_types.specs.Translation.{port_fits_dst, plain_fits_dst, port_fits_src, plain_fits_src, with_dst, with_src};
ghost use Rattle.net_types.specs.Translation.{outer_fits_dst, outer_fits_src, with_outer_dst, with_outer_src};

use hdr_bits::Header;
use net_types::{NatKind, NatRule};

/// The header after translation from outside. The first port rule that has its destination on the global side replaces
/// address and port by the local ones, else the first plain rule replaces the address; and the first outer rule that has
/// its source as the global address replaces it by the local one. Both are judged on the header as it comes.
pub fn from_outside(rules: &[NatRule], h: &Header) -> Header
    ensures { result ≡ from_outside rules.now h.now }
{
    with_source_of(&with_destination(rules, h), outer_rule_from(rules, h))
}

/// The header after translation from inside. The first port rule that has its source on the local side replaces address
/// and port by the global ones, else the first plain rule replaces the address; and the first outer rule that has its
/// destination as the local address replaces it by the global one. Both are judged on the header as it comes.
pub fn from_inside(rules: &[NatRule], h: &Header) -> Header
    ensures { result ≡ from_inside rules.now h.now }
{
    with_destination_of(&with_source(rules, h), outer_rule_to(rules, h))
}

// The destination replaced for a host inside.
fn with_destination(rules: &[NatRule], h: &Header) -> Header
    ensures { result ≡ with_dst h.now (find (port_fits_dst h.now) rules.now) (find (plain_fits_dst h.now) rules.now) }
{
    if let Some(rule) = port_rule_to(rules, h) {
        return Header {
            dst: rule.local,
            dport: rule.local_port,
            ..*h
        };
    }
    match plain_rule_to(rules, h) {
        Some(rule) => Header {
            dst: rule.local,
            ..*h
        },
        None => *h,
    }
}

// The source replaced for a host inside.
fn with_source(rules: &[NatRule], h: &Header) -> Header
    ensures { result ≡ with_src h.now (find (port_fits_src h.now) rules.now) (find (plain_fits_src h.now) rules.now) }
{
    if let Some(rule) = port_rule_from(rules, h) {
        return Header {
            src: rule.global,
            sport: rule.global_port,
            ..*h
        };
    }
    match plain_rule_from(rules, h) {
        Some(rule) => Header {
            src: rule.global,
            ..*h
        },
        None => *h,
    }
}

// The source replaced for a host outside, by this rule if there is one.
fn with_source_of(h: &Header, rule: Option<&NatRule>) -> Header
    ensures { result ≡ with_outer_src h.now (option_copied rule.entry) }
{
    match rule {
        Some(rule) => Header {
            src: rule.local,
            ..*h
        },
        None => *h,
    }
}

// The destination replaced for a host outside, by this rule if there is one.
fn with_destination_of(h: &Header, rule: Option<&NatRule>) -> Header
    ensures { result ≡ with_outer_dst h.now (option_copied rule.entry) }
{
    match rule {
        Some(rule) => Header {
            dst: rule.global,
            ..*h
        },
        None => *h,
    }
}

/// The first port rule that translates the header's destination.
pub fn port_rule_to<'a>(rules: &'a [NatRule], h: &Header) -> Option<&'a NatRule>
    ensures { option_copied result ≡ find (port_fits_dst h.now) rules.now }
{
    rules.iter().find(|r| port_fits_dst(h, r))
}

/// The first plain rule that does.
pub fn plain_rule_to<'a>(rules: &'a [NatRule], h: &Header) -> Option<&'a NatRule>
    ensures { option_copied result ≡ find (plain_fits_dst h.now) rules.now }
{
    rules.iter().find(|r| plain_fits_dst(h, r))
}

/// The first port rule that translates the header's source.
pub fn port_rule_from<'a>(rules: &'a [NatRule], h: &Header) -> Option<&'a NatRule>
    ensures { option_copied result ≡ find (port_fits_src h.now) rules.now }
{
    rules.iter().find(|r| port_fits_src(h, r))
}

/// The first plain rule that does.
pub fn plain_rule_from<'a>(rules: &'a [NatRule], h: &Header) -> Option<&'a NatRule>
    ensures { option_copied result ≡ find (plain_fits_src h.now) rules.now }
{
    rules.iter().find(|r| plain_fits_src(h, r))
}

/// The first outer rule that translates the header's source.
pub fn outer_rule_from<'a>(rules: &'a [NatRule], h: &Header) -> Option<&'a NatRule>
    ensures { option_copied result ≡ find (outer_fits_src h.now) rules.now }
{
    rules.iter().find(|r| outer_fits_src(h, r))
}

/// The first outer rule that translates the header's destination.
pub fn outer_rule_to<'a>(rules: &'a [NatRule], h: &Header) -> Option<&'a NatRule>
    ensures { option_copied result ≡ find (outer_fits_dst h.now) rules.now }
{
    rules.iter().find(|r| outer_fits_dst(h, r))
}

// Whether the port rule translates the header's destination.
fn port_fits_dst(h: &Header, rule: &NatRule) -> bool
    ensures { result ≡ port_fits_dst h.now rule.now }
{
    is_port_rule(rule.kind, h.proto) && (rule.global == h.dst && rule.global_port == h.dport)
}

// Whether the plain rule translates the header's destination.
fn plain_fits_dst(h: &Header, rule: &NatRule) -> bool
    ensures { result ≡ plain_fits_dst h.now rule.now }
{
    is_plain(rule.kind) && rule.global == h.dst
}

// Whether the port rule translates the header's source.
fn port_fits_src(h: &Header, rule: &NatRule) -> bool
    ensures { result ≡ port_fits_src h.now rule.now }
{
    is_port_rule(rule.kind, h.proto) && (rule.local == h.src && rule.local_port == h.sport)
}

// Whether the plain rule translates the header's source.
fn plain_fits_src(h: &Header, rule: &NatRule) -> bool
    ensures { result ≡ plain_fits_src h.now rule.now }
{
    is_plain(rule.kind) && rule.local == h.src
}

// Whether the outer rule translates the header's source.
fn outer_fits_src(h: &Header, rule: &NatRule) -> bool
    ensures { result ≡ outer_fits_src h.now rule.now }
{
    is_outer(rule.kind) && rule.global == h.src
}

// Whether the outer rule translates the header's destination.
fn outer_fits_dst(h: &Header, rule: &NatRule) -> bool
    ensures { result ≡ outer_fits_dst h.now rule.now }
{
    is_outer(rule.kind) && rule.local == h.dst
}

// Whether it is a rule for the address of a host inside, for every protocol and port.
fn is_plain(kind: NatKind) -> bool
    ensures { result ≡ is_plain kind }
{
    match kind {
        NatKind::Plain => true,
        NatKind::Tcp | NatKind::Udp | NatKind::Outer => false,
    }
}

/// Whether it is a rule for the address of a host outside.
pub fn is_outer(kind: NatKind) -> bool
    ensures { result ≡ is_outer kind }
{
    match kind {
        NatKind::Outer => true,
        NatKind::Plain | NatKind::Tcp | NatKind::Udp => false,
    }
}

fn is_port_rule(kind: NatKind, proto: u8) -> bool
    ensures { result ≡ is_port_rule kind proto }
{
    match kind {
        NatKind::Plain | NatKind::Outer => false,
        NatKind::Tcp => proto == 6,
        NatKind::Udp => proto == 17,
    }
}
