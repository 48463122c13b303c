//! What documents of JSON are made of. Text of a report stands in them as `append_string` writes it, and nowhere else.
ghost use Rattle.std.specs.Prelude.{◌≡◌, ◌++◌, ◌≤◌, ◌<◌, codes, OnOk};
ghost use Rattle.std.specs.List.{flat_map, join_by};
ghost use Rattle.report_text.specs.FieldText.{address_text, address_field_text, number_field_text};
ghost use Rattle.json_text.specs.Json.{string_byte, string_text, string_member, place_members, address_change, port_change, outcome_members, outcome_text, outcomes_text, cube_members, fields_members, row_text, hex_digit};

use crate::chunks::{Chunk, append_chunks, append_texts};
use crate::field_text::{address_field_bytes, number_field_bytes};
use hdr_bits::{Cube, Header};
use net_types::{Label, Names, NoMemory, Outcome, Place, Row};
use report_text::{address_bytes, append, name_of};
use std::alloc::Global;

/// The rows of an ingress. Where memory runs out, a part of them may stand there, here and below.
pub fn append_rows(
    alloc: Global,
    out: &mut Vec<u8>,
    names: &Names,
    rows: &[Row],
) -> Result<(), NoMemory>
    ensures { OnOk result (out.new.items ≡ out.old.items ++ join_by (row_text names.now) (codes ",\n") rows.now) }
{
    let [first, rest @ ..] = rows else {
        return Ok(());
    };
    append_row(alloc, out, names, first)?;
    for row in rest {
        append(out, b",\n")?;
        append_row(alloc, out, names, row)?;
    }
    Ok(())
}

#[tactic(auto, unfolding(crate::specs::Json::row_text))]
fn append_row(alloc: Global, out: &mut Vec<u8>, names: &Names, row: &Row) -> Result<(), NoMemory>
    ensures { OnOk result (out.new.items ≡ out.old.items ++ row_text names.now row.now) }
{
    append(out, b"{")?;
    append_cube(alloc, out, &row.cube)?;
    append(out, b", \"old\": ")?;
    append_label(alloc, out, names, &row.old)?;
    append(out, b", \"new\": ")?;
    append_label(alloc, out, names, &row.new)?;
    append(out, b"}")
}

fn append_cube(alloc: Global, out: &mut Vec<u8>, cube: &Cube) -> Result<(), NoMemory>
    ensures { OnOk result (out.new.items ≡ out.old.items ++ cube_members cube.now) }
{
    let (Some(fixed), Some(bits)) = (Header::from_bits(cube.fixed), Header::from_bits(cube.bits))
    else {
        unreachable!("a cube has 112 bits");
    };
    append_members(alloc, out, &fixed, &bits)
}

#[tactic(auto, unfolding(crate::specs::Json::fields_members))]
fn append_members(
    alloc: Global,
    out: &mut Vec<u8>,
    fixed: &Header,
    bits: &Header,
) -> Result<(), NoMemory>
    ensures { OnOk result (out.new.items ≡ out.old.items ++ fields_members fixed.now bits.now) }
{
    append_address_field(alloc, out, b"dst", fixed.dst, bits.dst)?;
    append(out, b", ")?;
    append_address_field(alloc, out, b"src", fixed.src, bits.src)?;
    append(out, b", ")?;
    append_number_field(
        alloc,
        out,
        b"proto",
        8,
        fixed.proto.into(),
        bits.proto.into(),
    )?;
    append(out, b", ")?;
    append_number_field(
        alloc,
        out,
        b"dport",
        16,
        fixed.dport.into(),
        bits.dport.into(),
    )?;
    append(out, b", ")?;
    append_number_field(
        alloc,
        out,
        b"sport",
        16,
        fixed.sport.into(),
        bits.sport.into(),
    )?;
    append(out, b", ")?;
    append_number_field(
        alloc,
        out,
        b"flags",
        8,
        fixed.flags.into(),
        bits.flags.into(),
    )
}

fn append_address_field(
    alloc: Global,
    out: &mut Vec<u8>,
    name: &[u8],
    fixed: u32,
    bits: u32,
) -> Result<(), NoMemory>
    ensures { OnOk result (out.new.items ≡ out.old.items ++ string_member name.now (address_field_text fixed bits)) }
{
    let text = address_field_bytes(alloc, fixed, bits)?;
    append_member(out, name, &text)
}

fn append_number_field(
    alloc: Global,
    out: &mut Vec<u8>,
    name: &[u8],
    width: u32,
    fixed: u32,
    bits: u32,
) -> Result<(), NoMemory>
    requires { width ≤ 16 }
    ensures { OnOk result (out.new.items ≡ out.old.items ++ string_member name.now (number_field_text width fixed bits)) }
{
    let text = number_field_bytes(alloc, width, fixed, bits)?;
    append_member(out, name, &text)
}

fn append_label(
    alloc: Global,
    out: &mut Vec<u8>,
    names: &Names,
    outcomes: &Label,
) -> Result<(), NoMemory>
    ensures { OnOk result (out.new.items ≡ out.old.items ++ outcomes_text names.now outcomes.now) }
{
    append_outcomes_array(alloc, out, names, outcomes.as_slice())
}

/// Adds outcomes as an array.
pub fn append_outcomes_array(
    alloc: Global,
    out: &mut Vec<u8>,
    names: &Names,
    outcomes: &[Outcome],
) -> Result<(), NoMemory>
    ensures { OnOk result (out.new.items ≡ out.old.items ++ outcomes_text names.now outcomes.now) }
{
    append(out, b"[")?;
    append_listed(alloc, out, names, outcomes)?;
    append(out, b"]")
}

fn append_listed(
    alloc: Global,
    out: &mut Vec<u8>,
    names: &Names,
    outcomes: &[Outcome],
) -> Result<(), NoMemory>
    ensures { OnOk result (out.new.items ≡ out.old.items ++ join_by (outcome_text names.now) (codes ", ") outcomes.now) }
{
    let [first, rest @ ..] = outcomes else {
        return Ok(());
    };
    append_outcome(alloc, out, names, first)?;
    for outcome in rest {
        append(out, b", ")?;
        append_outcome(alloc, out, names, outcome)?;
    }
    Ok(())
}

fn append_outcome(
    alloc: Global,
    out: &mut Vec<u8>,
    names: &Names,
    outcome: &Outcome,
) -> Result<(), NoMemory>
    ensures { OnOk result (out.new.items ≡ out.old.items ++ outcome_text names.now outcome.now) }
{
    append(out, b"{")?;
    append_outcome_members(alloc, out, names, outcome)?;
    append(out, b"}")
}

#[tactic(auto, unfolding(crate::specs::Json::outcome_members))]
fn append_outcome_members(
    alloc: Global,
    out: &mut Vec<u8>,
    names: &Names,
    outcome: &Outcome,
) -> Result<(), NoMemory>
    ensures { OnOk result (out.new.items ≡ out.old.items ++ outcome_members names.now outcome.now) }
{
    match *outcome {
        Outcome::Dropped => append_member(out, b"end", b"drop"),
        Outcome::Expired => append_member(out, b"end", b"expired"),
        Outcome::Local { place } => append_end(out, b"local", names, place),
        Outcome::Exit {
            place,
            src,
            dst,
            sport,
            dport,
        } => {
            append_end(out, b"exit", names, place)?;
            append_address(alloc, out, b"src", src)?;
            append_address(alloc, out, b"dst", dst)?;
            append_port(out, b"sport", sport)?;
            append_port(out, b"dport", dport)
        }
    }
}

// How a walk ended at a place.
#[tactic(auto, unfolding(crate::specs::Json::place_members))]
fn append_end<'p>(
    out: &mut Vec<u8>,
    end: &'p [u8],
    names: &'p Names,
    place: Place,
) -> Result<(), NoMemory>
    ensures { OnOk result (out.new.items ≡ out.old.items ++ (string_member (codes "end") end.now ++ codes ", " ++ place_members names.now place)) }
{
    append_chunks(
        out,
        &[
            Chunk::Bytes(b"\"end\": "),
            Chunk::String(end),
            Chunk::Bytes(b", \"device\": "),
            Chunk::String(name_of(names, place.device)),
            Chunk::Bytes(b", \"interface\": "),
            Chunk::String(name_of(names, place.interface)),
        ],
    )
}

fn append_address(
    alloc: Global,
    out: &mut Vec<u8>,
    name: &[u8],
    address: Option<u32>,
) -> Result<(), NoMemory>
    ensures { OnOk result (out.new.items ≡ out.old.items ++ address_change name.now address) }
{
    match address {
        Some(address) => {
            let text = address_bytes(alloc, address)?;
            append_chunks(
                out,
                &[
                    Chunk::Bytes(b", \""),
                    Chunk::Bytes(name),
                    Chunk::Bytes(b"\": "),
                    Chunk::String(&text),
                ],
            )
        }
        None => Ok(()),
    }
}

fn append_port(out: &mut Vec<u8>, name: &[u8], port: Option<u16>) -> Result<(), NoMemory>
    ensures { OnOk result (out.new.items ≡ out.old.items ++ port_change name.now port) }
{
    match port {
        Some(port) => append_chunks(
            out,
            &[
                Chunk::Bytes(b", \""),
                Chunk::Bytes(name),
                Chunk::Bytes(b"\": "),
                Chunk::Number(port.into()),
            ],
        ),
        None => Ok(()),
    }
}

/// Adds the names of a place as members. Where memory runs out, a part of them may stand there.
#[tactic(auto, unfolding(crate::specs::Json::place_members))]
pub fn append_place_members(out: &mut Vec<u8>, names: &Names, place: Place) -> Result<(), NoMemory>
    ensures { OnOk result (out.new.items ≡ out.old.items ++ place_members names.now place) }
{
    append_chunks(
        out,
        &[
            Chunk::Bytes(b"\"device\": "),
            Chunk::String(name_of(names, place.device)),
            Chunk::Bytes(b", \"interface\": "),
            Chunk::String(name_of(names, place.interface)),
        ],
    )
}

/// Adds a member that is a string. Where memory runs out, a part of it may stand there, here and below.
pub fn append_member(out: &mut Vec<u8>, name: &[u8], text: &[u8]) -> Result<(), NoMemory>
    ensures { OnOk result (out.new.items ≡ out.old.items ++ string_member name.now text.now) }
{
    append_texts(out, &[b"\"", name, b"\": "])?;
    append_string(out, text)
}

/// Adds a string.
#[tactic(auto, unfolding(crate::specs::Json::string_text))]
pub fn append_string(out: &mut Vec<u8>, text: &[u8]) -> Result<(), NoMemory>
    ensures { OnOk result (out.new.items ≡ out.old.items ++ string_text text.now) }
{
    append(out, b"\"")?;
    append_string_bytes(out, text)?;
    append(out, b"\"")
}

fn append_string_bytes(out: &mut Vec<u8>, text: &[u8]) -> Result<(), NoMemory>
    ensures { OnOk result (out.new.items ≡ out.old.items ++ flat_map string_byte text.now) }
{
    for b in text {
        append_string_byte(out, *b)?;
    }
    Ok(())
}

#[tactic(auto, unfolding(crate::specs::Json::string_byte))]
fn append_string_byte(out: &mut Vec<u8>, b: u8) -> Result<(), NoMemory>
    ensures { OnOk result (out.new.items ≡ out.old.items ++ string_byte b) }
{
    if b == b'"' || b == b'\\' {
        append(out, &[b'\\', b])
    } else if b < 32 || b > 126 {
        append(
            out,
            &[
                b'\\',
                b'u',
                b'0',
                b'0',
                hex_digit(b / 16),
                hex_digit(b % 16),
            ],
        )
    } else {
        append(out, &[b])
    }
}

// A hexadecimal digit.
fn hex_digit(d: u8) -> u8
    requires { d < 16 }
    ensures { result ≡ hex_digit d }
{
    if d < 10 { 48 + d } else { 87 + d }
}
