//! The packet of an answer in words.
ghost use Rattle.std.specs.Prelude.{◌≡◌, ◌++◌, IfOk, OnOk};
ghost use Rattle.answer_view.specs.Packet.{values_from, has_ports, has_source, port_shown, flags_set, flags_shown, packet_shown, packet_words};

use hdr_bits::Header;
use net_types::{List, NoMemory};
use report_groups::{Flags, Part, Pattern, Shown, Span, Values};
use report_text::append;
use std::alloc::Global;
use view_core::{append_fields, behind_blanks};

const ICMP: u8 = 1;

const TCP: u8 = 6;

const UDP: u8 = 17;

/// Adds the words of a packet. Where memory runs out, a part of them may stand there.
#[tactic(auto, unfolding(crate::specs::Packet::packet_words))]
pub(crate) fn append_packet(
    alloc: Global,
    out: &mut Vec<u8>,
    header: &Header,
) -> Result<(), NoMemory>
    ensures { OnOk result (out.new.items ≡ out.old.items ++ packet_words header.now) }
{
    let mut words = Vec::new(alloc);
    append_fields(alloc, &mut words, &packet_shown(alloc, header)?)?;
    append(out, behind_blanks(&words))
}

#[tactic(auto, unfolding(crate::specs::Packet::packet_shown))]
fn packet_shown(alloc: Global, header: &Header) -> Result<Shown, NoMemory>
    ensures { IfOk result (λ shown. shown ≡ packet_shown header.now) }
{
    Ok(Shown {
        dst: values_from(alloc, header.dst, header.dst)?,
        src: values_from(alloc, header.src, header.src)?,
        proto: values_from(alloc, header.proto.into(), header.proto.into())?,
        dport: port_shown(alloc, has_ports(header.proto), header.dport)?,
        sport: port_shown(alloc, has_source(header.proto), header.sport)?,
        flags: flags_shown(alloc, flags_set(header.proto, header.flags))?,
    })
}

fn values_from(alloc: Global, low: u32, high: u32) -> Result<Values, NoMemory>
    ensures { IfOk result (λ values. values ≡ values_from low high) }
{
    let mut parts = List::empty(alloc);
    parts.push(Part::Run(Span { low, high }))?;
    Ok(Values {
        negated: false,
        parts,
    })
}

fn port_shown(alloc: Global, there: bool, port: u16) -> Result<Values, NoMemory>
    ensures { IfOk result (λ values. values ≡ port_shown there port) }
{
    if there {
        values_from(alloc, port.into(), port.into())
    } else {
        values_from(alloc, 0, 65_535)
    }
}

fn flags_shown(alloc: Global, flags: u8) -> Result<Flags, NoMemory>
    ensures { IfOk result (λ shown. shown ≡ flags_shown flags) }
{
    let mut patterns = List::empty(alloc);
    patterns.push(Pattern {
        fixed: flags.into(),
        bits: flags.into(),
    })?;
    Ok(Flags::Matching(patterns))
}

fn has_ports(proto: u8) -> bool
    ensures { result ≡ has_ports proto }
{
    proto == TCP || proto == UDP
}

fn has_source(proto: u8) -> bool
    ensures { result ≡ has_source proto }
{
    has_ports(proto) || proto == ICMP
}

fn flags_set(proto: u8, flags: u8) -> u8
    ensures { result ≡ flags_set proto flags }
{
    if proto == TCP { flags } else { 0 }
}
