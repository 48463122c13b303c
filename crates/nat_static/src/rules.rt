//! Rules as cubes and stamps.

ghost use Rattle.std.specs.Prelude.{◌≡◌, ◌==◌, ◌/◌, ◌%◌, ◌^◌, ◌↔◌, ℕ, IsTrue};
ghost use Rattle.hdr_bits.specs.declared.header.Header.{Header};
ghost use Rattle.hdr_bits.specs.HeaderBits.{number, IsHeader};
ghost use Rattle.hdr_bits.specs.CubeBits.{IsIn};

use cube_alg::Stamp;
use hdr_bits::Cube;
use header_rules::is_outer;
use net_types::{NatKind, NatRule};

/// From which side a packet comes.
#[derive(Clone, Copy)]
pub(crate) enum Direction {
    /// From outside to inside: from global to local.
    FromOutside,
    /// From inside to outside: from local to global.
    FromInside,
}

/// Rules of which the first that matches applies.
#[derive(Clone, Copy)]
pub(crate) enum Group {
    Port,
    Plain,
    Outer,
}

ghost use Rattle.nat_static.specs.Sides.{destination_stamp, source_stamp, is_protocol};
ghost use Rattle.nat_static.specs.Rules.{rule_stamp, fits, is_in_group, matched_side, written};

/// Whether a rule of this kind is in the group.
pub(crate) fn is_in_group(group: Group, kind: NatKind) -> bool
    ensures { result ≡ is_in_group group kind }
{
    match group {
        Group::Port => matches!(kind, NatKind::Tcp | NatKind::Udp),
        Group::Plain => matches!(kind, NatKind::Plain),
        Group::Outer => matches!(kind, NatKind::Outer),
    }
}

/// The headers that the rule matches in this direction: those with the side that it replaces.
pub(crate) fn rule_cube(direction: Direction, rule: &NatRule) -> Cube
    ensures { (h : Header) → IsHeader h → IsIn result (number h) ↔ IsTrue (fits direction h rule.now) }
{
    matched_side(direction, rule).forth(&protocol_cube(rule.kind))
}

/// What the rule replaces in a header that it matches in this direction.
pub(crate) fn rule_stamp(direction: Direction, rule: &NatRule) -> Stamp
    ensures { result ≡ rule_stamp direction rule.now }
{
    match direction {
        Direction::FromOutside => written(direction, rule.kind, rule.local, rule.local_port),
        Direction::FromInside => written(direction, rule.kind, rule.global, rule.global_port),
    }
}

// The side that a header must have for the rule to match it, as the stamp that writes it.
fn matched_side(direction: Direction, rule: &NatRule) -> Stamp
    ensures { result ≡ matched_side direction rule.now }
{
    match direction {
        Direction::FromOutside => written(direction, rule.kind, rule.global, rule.global_port),
        Direction::FromInside => written(direction, rule.kind, rule.local, rule.local_port),
    }
}

// The stamp that writes a side where rules of this kind replace it: a host inside is the destination from outside and
// the source from inside, and a host outside the other way round.
fn written(direction: Direction, kind: NatKind, address: u32, port: u16) -> Stamp
    ensures { result ≡ written direction kind address port }
{
    let is_source = match direction {
        Direction::FromOutside => is_outer(kind),
        Direction::FromInside => !is_outer(kind),
    };
    if is_source {
        source_stamp(kind, address, port)
    } else {
        destination_stamp(kind, address, port)
    }
}

// The stamp that writes a side as the destination; only a port rule's side has a port.
fn destination_stamp(kind: NatKind, address: u32, port: u16) -> Stamp
    ensures { result ≡ destination_stamp kind address port }
{
    match kind {
        NatKind::Plain | NatKind::Outer => Stamp {
            dst: Some(address),
            ..Stamp::none()
        },
        NatKind::Tcp | NatKind::Udp => Stamp {
            dst: Some(address),
            dport: Some(port),
            ..Stamp::none()
        },
    }
}

// The stamp that writes a side as the source.
fn source_stamp(kind: NatKind, address: u32, port: u16) -> Stamp
    ensures { result ≡ source_stamp kind address port }
{
    match kind {
        NatKind::Plain | NatKind::Outer => Stamp {
            src: Some(address),
            ..Stamp::none()
        },
        NatKind::Tcp | NatKind::Udp => Stamp {
            src: Some(address),
            sport: Some(port),
            ..Stamp::none()
        },
    }
}

// The headers whose protocol a rule of this kind translates.
fn protocol_cube(kind: NatKind) -> Cube
    ensures { (h : ℕ) → IsIn result h ↔ IsTrue (is_protocol kind h) }
{
    match kind {
        NatKind::Plain | NatKind::Outer => Cube::all(),
        NatKind::Tcp => protocol(6),
        NatKind::Udp => protocol(17),
    }
}

// The headers of this protocol.
fn protocol(number: u8) -> Cube
    ensures { (h : ℕ) → IsIn result h ↔ IsTrue (h / 2 ^ 40 % 2 ^ 8 == number) }
{
    Cube {
        fixed: 0xff << 40,
        bits: u128::from(number) << 40,
    }
}
