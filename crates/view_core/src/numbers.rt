//! Protocols, ports and ICMP messages as a person reads them.
ghost use Rattle.std.specs.Prelude.{◌≡◌, ◌++◌, ◌/◌, ◌%◌, option_map, OnOk};
ghost use Rattle.view_core.specs.FieldWords.{range_text, name_or, protocol_text, protocol_part, name_behind, ports_text, port_part, one_type, one_message, some_types, some_messages, messages_text, masked_messages, message_part};

use crate::labels::{Service, code_name, port_name, protocol_name, type_name};
use json_text::{Chunk, append_chunks, append_texts};
use net_types::NoMemory;
use report_groups::{Part, Pattern, Span};
use report_text::{append, append_number, append_ternary};

/// A protocol by its name, or numbers.
pub(crate) fn append_protocol_part(out: &mut Vec<u8>, part: &Part) -> Result<(), NoMemory>
    ensures { OnOk result (out.new.items ≡ out.old.items ++ protocol_part part.now) }
{
    match part {
        Part::Run(span) => append_protocol(out, span),
        Part::Masked(pattern) => {
            append(out, b"proto ")?;
            append_ternary(out, 8, pattern.fixed, pattern.bits)
        }
    }
}

/// A port, behind which its name stands, or ports.
pub(crate) fn append_port_part(
    out: &mut Vec<u8>,
    service: Service,
    part: &Part,
) -> Result<(), NoMemory>
    ensures { OnOk result (out.new.items ≡ out.old.items ++ port_part service part.now) }
{
    match part {
        Part::Run(span) => append_ports(out, service, span),
        Part::Masked(pattern) => append_ternary(out, 16, pattern.fixed, pattern.bits),
    }
}

/// ICMP messages: by name, by types and codes, or by numbers, each a type times 256 plus a code.
pub(crate) fn append_message_part(out: &mut Vec<u8>, part: &Part) -> Result<(), NoMemory>
    ensures { OnOk result (out.new.items ≡ out.old.items ++ message_part part.now) }
{
    match part {
        Part::Run(span) => append_messages(out, span),
        Part::Masked(pattern) => append_masked(out, pattern),
    }
}

fn append_masked(out: &mut Vec<u8>, pattern: &Pattern) -> Result<(), NoMemory>
    ensures { OnOk result (out.new.items ≡ out.old.items ++ masked_messages pattern.now) }
{
    append(out, b"icmp message ")?;
    append_ternary(out, 16, pattern.fixed, pattern.bits)?;
    Ok(())
}

// The number, or the first and the last one.
#[tactic(auto, unfolding(crate::specs::FieldWords::range_text))]
fn append_range(out: &mut Vec<u8>, span: &Span) -> Result<(), NoMemory>
    ensures { OnOk result (out.new.items ≡ out.old.items ++ range_text span.now) }
{
    if span.low == span.high {
        append_number(out, span.low)
    } else {
        append_chunks(
            out,
            &[
                Chunk::Number(span.low.into()),
                Chunk::Bytes(b" - "),
                Chunk::Number(span.high.into()),
            ],
        )
    }
}

#[tactic(auto, unfolding(crate::specs::FieldWords::protocol_text))]
fn append_protocol(out: &mut Vec<u8>, span: &Span) -> Result<(), NoMemory>
    ensures { OnOk result (out.new.items ≡ out.old.items ++ protocol_text span.now) }
{
    let name = if span.low == span.high {
        protocol_name(span.low)
    } else {
        None
    };
    match name {
        Some(name) => append(out, name),
        None => {
            append(out, b"proto ")?;
            append_range(out, span)
        }
    }
}

#[tactic(auto, unfolding(crate::specs::FieldWords::ports_text))]
fn append_ports(out: &mut Vec<u8>, service: Service, span: &Span) -> Result<(), NoMemory>
    ensures { OnOk result (out.new.items ≡ out.old.items ++ ports_text service span.now) }
{
    let name = if span.low == span.high {
        port_name(span.low, service)
    } else {
        None
    };
    append_range(out, span)?;
    append_behind(out, name)
}

fn append_behind(out: &mut Vec<u8>, name: Option<&[u8]>) -> Result<(), NoMemory>
    ensures { OnOk result (out.new.items ≡ out.old.items ++ name_behind (option_map (λ n. n.now) name.entry)) }
{
    match name {
        Some(name) => append_texts(out, &[b" (", name, b")"]),
        None => Ok(()),
    }
}

#[tactic(auto, unfolding(crate::specs::FieldWords::messages_text))]
fn append_messages(out: &mut Vec<u8>, span: &Span) -> Result<(), NoMemory>
    ensures { OnOk result (out.new.items ≡ out.old.items ++ messages_text span.now) }
{
    if span.low == span.high {
        append_message(out, span.low)
    } else if span.low % 256 == 0 && span.high % 256 == 255 {
        if span.low / 256 == span.high / 256 {
            append_type(out, span.low / 256)
        } else {
            append_types(out, span)
        }
    } else {
        append_numbers(out, span)
    }
}

fn append_numbers(out: &mut Vec<u8>, span: &Span) -> Result<(), NoMemory>
    ensures { OnOk result (out.new.items ≡ out.old.items ++ some_messages span.now) }
{
    append(out, b"icmp message ")?;
    append_number(out, span.low)?;
    append(out, b" - ")?;
    append_number(out, span.high)?;
    Ok(())
}

fn append_type(out: &mut Vec<u8>, kind: u32) -> Result<(), NoMemory>
    ensures { OnOk result (out.new.items ≡ out.old.items ++ one_type kind) }
{
    match type_name(kind) {
        Some(name) => append(out, name),
        None => append_chunks(
            out,
            &[Chunk::Bytes(b"icmp type "), Chunk::Number(kind.into())],
        ),
    }
}

fn append_message(out: &mut Vec<u8>, message: u32) -> Result<(), NoMemory>
    ensures { OnOk result (out.new.items ≡ out.old.items ++ one_message message) }
{
    match code_name(message) {
        Some(name) => append(out, name),
        None => append_chunks(
            out,
            &[
                Chunk::Bytes(b"icmp type "),
                Chunk::Number((message / 256).into()),
                Chunk::Bytes(b" code "),
                Chunk::Number((message % 256).into()),
            ],
        ),
    }
}

fn append_types(out: &mut Vec<u8>, span: &Span) -> Result<(), NoMemory>
    ensures { OnOk result (out.new.items ≡ out.old.items ++ some_types span.now) }
{
    append_chunks(
        out,
        &[
            Chunk::Bytes(b"icmp types "),
            Chunk::Number((span.low / 256).into()),
            Chunk::Bytes(b" - "),
            Chunk::Number((span.high / 256).into()),
        ],
    )
}
