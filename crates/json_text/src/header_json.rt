//! A header as members of an object.
ghost use Rattle.std.specs.Prelude.{◌≡◌, ◌++◌, OnOk};
ghost use Rattle.json_text.specs.Json.{address_members, port_members, header_members};

use crate::json::append_member;
use hdr_bits::Header;
use net_types::NoMemory;
use report_text::{address_bytes, append, append_number};
use std::alloc::Global;

/// Adds the fields of a header by their names. Where memory runs out, a part of them may stand there.
#[tactic(auto, unfolding(crate::specs::Json::header_members))]
pub fn append_header_members(
    alloc: Global,
    out: &mut Vec<u8>,
    header: &Header,
) -> Result<(), NoMemory>
    ensures { OnOk result (out.new.items ≡ out.old.items ++ header_members header.now) }
{
    append_addresses(alloc, out, header)?;
    append_ports(out, header)
}

#[tactic(auto, unfolding(crate::specs::Json::address_members))]
fn append_addresses(alloc: Global, out: &mut Vec<u8>, header: &Header) -> Result<(), NoMemory>
    ensures { OnOk result (out.new.items ≡ out.old.items ++ address_members header.now) }
{
    append_member(out, b"dst", &address_bytes(alloc, header.dst)?)?;
    append(out, b", ")?;
    append_member(out, b"src", &address_bytes(alloc, header.src)?)?;
    append(out, b", \"proto\": ")?;
    append_number(out, header.proto)
}

#[tactic(auto, unfolding(crate::specs::Json::port_members))]
fn append_ports(out: &mut Vec<u8>, header: &Header) -> Result<(), NoMemory>
    ensures { OnOk result (out.new.items ≡ out.old.items ++ port_members header.now) }
{
    append(out, b", \"dport\": ")?;
    append_number(out, header.dport)?;
    append(out, b", \"sport\": ")?;
    append_number(out, header.sport)?;
    append(out, b", \"flags\": ")?;
    append_number(out, header.flags)
}
