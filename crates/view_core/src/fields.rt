//! The fields of a group as a person reads them.
ghost use Rattle.std.specs.Prelude.{◌≡◌, ◌++◌, ◌∷◌, [], ◌-◌, ◌≤◌, ◌^◌, ◌||◌, codes, OnOk};
ghost use Rattle.std.specs.List.{join_by, list_all, list_any};
ghost use Rattle.view_core.specs.FieldWords.{part_text, width_of, values_text, field_words, is_whole, is_open, is_only, is_served, service_with, service_of, is_icmp, source_kind, source_words, open_words, words_text};

use crate::addresses::{append_address_part, power};
use crate::flags::append_flags;
use crate::labels::Service;
use crate::numbers::{append_message_part, append_port_part, append_protocol_part};
use net_types::NoMemory;
use report_groups::{Part, Shown, Values};
use report_text::append;
use std::alloc::Global;

const ICMP: u32 = 1;

const TCP: u32 = 6;

const UDP: u32 = 17;

/// What the numbers of a field are.
#[derive(Clone, Copy)]
pub(crate) enum Kind {
    Address,
    Protocol,
    Port(Service),
    Message,
}

/// The fields of a group that aren't open, each behind its name with two blanks before it; or that any header is in it. Where memory
/// runs out, a part of them may stand there.
#[tactic(auto, unfolding(crate::specs::FieldWords::words_text))]
pub fn append_fields(alloc: Global, out: &mut Vec<u8>, shown: &Shown) -> Result<(), NoMemory>
    ensures { OnOk result (out.new.items ≡ out.old.items ++ words_text shown.now) }
{
    let mut words = Vec::new(alloc);
    append_open(&mut words, shown)?;
    if words.is_empty() {
        append(out, b"  any header")
    } else {
        append(out, &words)
    }
}

#[tactic(auto, unfolding(crate::specs::FieldWords::open_words))]
fn append_open(out: &mut Vec<u8>, shown: &Shown) -> Result<(), NoMemory>
    ensures { OnOk result (out.new.items ≡ out.old.items ++ open_words shown.now) }
{
    let ports = Kind::Port(service_of(&shown.proto));
    append_field(out, b"  dst ", &shown.dst, Kind::Address)?;
    append_field(out, b"  src ", &shown.src, Kind::Address)?;
    append_field(out, b"  ", &shown.proto, Kind::Protocol)?;
    append_field(out, b"  dport ", &shown.dport, ports)?;
    append_source(out, shown)?;
    append_flags(out, &shown.flags)
}

fn append_source(out: &mut Vec<u8>, shown: &Shown) -> Result<(), NoMemory>
    ensures { OnOk result (out.new.items ≡ out.old.items ++ source_words shown.now) }
{
    let kind = source_kind(&shown.proto);
    if is_icmp(&shown.proto) {
        append_field(out, b"  ", &shown.sport, kind)
    } else {
        append_field(out, b"  sport ", &shown.sport, kind)
    }
}

/// What the numbers of the source port are.
pub(crate) fn source_kind(proto: &Values) -> Kind
    ensures { result ≡ source_kind proto.now }
{
    if is_icmp(proto) {
        Kind::Message
    } else {
        Kind::Port(service_of(proto))
    }
}

// A field behind its name, where it isn't open.
fn append_field(out: &mut Vec<u8>, name: &[u8], values: &Values, kind: Kind) -> Result<(), NoMemory>
    ensures { OnOk result (out.new.items ≡ out.old.items ++ field_words name.now kind values.now) }
{
    if is_open(width_of(kind), values) {
        return Ok(());
    }
    append(out, name)?;
    append_values(out, values, kind)
}

/// The parts of what is shown of a field.
#[tactic(auto, unfolding(crate::specs::FieldWords::values_text))]
pub(crate) fn append_values(out: &mut Vec<u8>, values: &Values, kind: Kind) -> Result<(), NoMemory>
    ensures { OnOk result (out.new.items ≡ out.old.items ++ values_text kind values.now) }
{
    let parts = values.parts.as_slice();
    if values.negated {
        append(out, b"not ")?;
        append_parts(out, b" nor ", parts, kind)
    } else {
        append_parts(out, b", ", parts, kind)
    }
}

// Parts with words between them.
fn append_parts(
    out: &mut Vec<u8>,
    between: &[u8],
    parts: &[Part],
    kind: Kind,
) -> Result<(), NoMemory>
    ensures { OnOk result (out.new.items ≡ out.old.items ++ join_by (part_text kind) between.now parts.now) }
{
    let [first, rest @ ..] = parts else {
        return Ok(());
    };
    append_part(out, first, kind)?;
    for part in rest {
        append(out, between)?;
        append_part(out, part, kind)?;
    }
    Ok(())
}

fn append_part(out: &mut Vec<u8>, part: &Part, kind: Kind) -> Result<(), NoMemory>
    ensures { OnOk result (out.new.items ≡ out.old.items ++ part_text kind part.now) }
{
    match kind {
        Kind::Address => append_address_part(out, part),
        Kind::Protocol => append_protocol_part(out, part),
        Kind::Port(service) => append_port_part(out, service, part),
        Kind::Message => append_message_part(out, part),
    }
}

/// How many bits a field has.
pub(crate) fn width_of(kind: Kind) -> u32
    ensures value { result ≡ width_of kind }
    ensures most { result ≤ 32 }
{
    match kind {
        Kind::Address => 32,
        Kind::Protocol => 8,
        Kind::Port(_) => 16,
        Kind::Message => 16,
    }
}

/// Whether all values of so many bits are meant.
pub(crate) fn is_open(width: u32, values: &Values) -> bool
    requires { width ≤ 32 }
    ensures { result ≡ is_open width values.now }
{
    !values.negated && is_any_whole(width, values.parts.as_slice())
}

fn is_any_whole(width: u32, parts: &[Part]) -> bool
    requires { width ≤ 32 }
    ensures { result ≡ list_any (is_whole width) parts.now }
{
    parts.iter().any(|p| is_whole(width, p))
}

fn is_whole(width: u32, part: &Part) -> bool
    requires { width ≤ 32 }
    ensures { result ≡ is_whole width part.now }
{
    match part {
        Part::Run(span) => span.low == 0 && u64::from(span.high) == power(width) - 1,
        Part::Masked(_) => false,
    }
}

// Whether a part is this number alone.
fn is_only(number: u32, part: &Part) -> bool
    ensures { result ≡ is_only number part.now }
{
    match part {
        Part::Run(span) => span.low == number && span.high == number,
        Part::Masked(_) => false,
    }
}

// Whether ICMP is the only protocol.
fn is_icmp(proto: &Values) -> bool
    ensures { result ≡ is_icmp proto.now }
{
    let parts = proto.parts.as_slice();
    !proto.negated && parts.len() == 1 && are_only(ICMP, parts)
}

fn are_only(number: u32, parts: &[Part]) -> bool
    ensures { result ≡ list_all (is_only number) parts.now }
{
    parts.iter().all(|p| is_only(number, p))
}

fn is_any_only(number: u32, parts: &[Part]) -> bool
    ensures { result ≡ list_any (is_only number) parts.now }
{
    parts.iter().any(|p| is_only(number, p))
}

fn are_served(parts: &[Part]) -> bool
    ensures { result ≡ list_all is_served parts.now }
{
    parts.iter().all(|p| is_served(p))
}

// Whether a part is TCP or UDP.
fn is_served(part: &Part) -> bool
    ensures { result ≡ is_served part.now }
{
    is_only(TCP, part) || is_only(UDP, part)
}

/// Whose names the ports have: those of TCP, of UDP, or of both where each protocol is one of these.
pub(crate) fn service_of(proto: &Values) -> Service
    ensures { result ≡ service_of proto.now }
{
    let parts = proto.parts.as_slice();
    if !proto.negated && are_served(parts) {
        service_with(is_any_only(TCP, parts), is_any_only(UDP, parts))
    } else {
        Service::Unknown
    }
}

fn service_with(tcp: bool, udp: bool) -> Service
    ensures { result ≡ service_with tcp udp }
{
    match (tcp, udp) {
        (true, true) => Service::Both,
        (true, false) => Service::Tcp,
        (false, true) => Service::Udp,
        (false, false) => Service::Unknown,
    }
}
