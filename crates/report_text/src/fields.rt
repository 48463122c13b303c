//! Numbers, addresses and the fields of a cube as text: `*`, a number, an address or a prefix, or a digit for each bit.

ghost use Rattle.std.specs.Prelude.{◌≡◌, ◌-◌, ◌^◌, ◌≤◌, ◌<◌, [], ◌∷◌, ◌++◌, decimal, IfOk, OnOk};
ghost use Rattle.report_text.specs.FieldText.{address_text, ternary_text, prefix_length, address_field_text, number_field_text, digit_text, partial_text};
ghost use Rattle.std.specs.Int.{bit_at};

use crate::parts::TextPart::{Bytes, Number};
use crate::parts::append_all;
use itoa::{Buffer, Integer};
use net_types::NoMemory;
use std::alloc::Global;

/// A number in decimal, without leading zeros.
pub fn decimal_bytes(alloc: Global, number: u64) -> Result<Vec<u8>, NoMemory>
    ensures { IfOk result (λ text. text.items ≡ decimal number) }
{
    let mut text = Vec::new(alloc);
    append_number(&mut text, number)?;
    Ok(text)
}

/// An IPv4 address as text: its four octets in decimal, with dots between them.
pub fn address_bytes(alloc: Global, address: u32) -> Result<Vec<u8>, NoMemory>
    ensures { IfOk result (λ text. text.items ≡ address_text address) }
{
    let mut text = Vec::new(alloc);
    append_address(&mut text, address)?;
    Ok(text)
}

/// Adds a text at the end. Where memory runs out, a part of the text may stand there.
pub fn append(out: &mut Vec<u8>, text: &[u8]) -> Result<(), NoMemory>
    ensures { OnOk result (out.new.items ≡ out.old.items ++ text.now) }
{
    out.extend_from_slice(text)?;
    Ok(())
}

/// Adds a number in decimal, likewise.
pub fn append_number<I: Integer>(out: &mut Vec<u8>, number: I) -> Result<(), NoMemory>
    ensures { OnOk result (out.new.items ≡ out.old.items ++ I.text number) }
{
    let mut buffer = Buffer::new();
    append(out, buffer.format(number).as_bytes())
}

/// Adds an IPv4 address, likewise.
#[tactic(auto, unfolding(crate::specs::FieldText::address_text))]
pub fn append_address(out: &mut Vec<u8>, address: u32) -> Result<(), NoMemory>
    ensures { OnOk result (out.new.items ≡ out.old.items ++ address_text address) }
{
    append_all(
        out,
        &[
            Number((address >> 24).into()),
            Bytes(b"."),
            Number((address >> 16 & 0xff).into()),
            Bytes(b"."),
            Number((address >> 8 & 0xff).into()),
            Bytes(b"."),
            Number((address & 0xff).into()),
        ],
    )
}

// Place `k` from the least significant one, as a ternary digit.
pub(crate) fn ternary_digit(fixed: u32, bits: u32, k: u32) -> u8
    requires { k < 32 }
    ensures { digit_text (bit_at fixed k) (bit_at bits k) ≡ result ∷ [] }
{
    if fixed >> k & 1 == 0 {
        b'*'
    } else if bits >> k & 1 == 0 {
        b'0'
    } else {
        b'1'
    }
}

/// Adds the lowest `width` bits, at most 32, as ternary digits, the most significant one first; likewise.
pub fn append_ternary(out: &mut Vec<u8>, width: u32, fixed: u32, bits: u32) -> Result<(), NoMemory>
    requires { width ≤ 32 }
    ensures { OnOk result (out.new.items ≡ out.old.items ++ ternary_text width fixed bits) }
{
    for k in (0..width).rev() {
        out.push(ternary_digit(fixed, bits, k))?;
    }
    Ok(())
}

// The length of the prefix whose bits these are. They are neither all bits nor none.
pub(crate) fn prefix_length(fixed: u32) -> Option<u32>
    requires some { 0 < fixed }
    requires not_all { fixed < 2 ^ 32 - 1 }
    ensures { result ≡ prefix_length fixed }
{
    let free = fixed.trailing_zeros();
    if fixed == u32::MAX << free {
        Some(32 - free)
    } else {
        None
    }
}

/// Adds a field that is an address: `*`, an address, a prefix or ternary digits; likewise.
#[tactic(auto, unfolding(crate::specs::FieldText::address_field_text))]
pub fn append_address_field(out: &mut Vec<u8>, fixed: u32, bits: u32) -> Result<(), NoMemory>
    ensures { OnOk result (out.new.items ≡ out.old.items ++ address_field_text fixed bits) }
{
    match fixed {
        0 => append(out, b"*"),
        u32::MAX => append_address(out, bits),
        _ => append_partial(out, fixed, bits),
    }
}

// An address of which some bits are fixed and some are not.
fn append_partial(out: &mut Vec<u8>, fixed: u32, bits: u32) -> Result<(), NoMemory>
    requires some { 0 < fixed }
    requires not_all { fixed < 2 ^ 32 - 1 }
    ensures { OnOk result (out.new.items ≡ out.old.items ++ partial_text (prefix_length fixed) fixed bits) }
{
    match prefix_length(fixed) {
        Some(length) => {
            append_address(out, bits)?;
            append(out, b"/")?;
            append_number(out, length)
        }
        None => append_ternary(out, 32, fixed, bits),
    }
}

/// Adds a field that is a number of `width` bits, at most 16: `*`, the number or ternary digits; likewise.
#[tactic(auto, unfolding(crate::specs::FieldText::number_field_text))]
pub fn append_number_field(
    out: &mut Vec<u8>,
    width: u32,
    fixed: u32,
    bits: u32,
) -> Result<(), NoMemory>
    requires { width ≤ 16 }
    ensures { OnOk result (out.new.items ≡ out.old.items ++ number_field_text width fixed bits) }
{
    if fixed == 0 {
        append(out, b"*")
    } else if fixed == (1 << width) - 1 {
        append_number(out, bits)
    } else {
        append_ternary(out, width, fixed, bits)
    }
}
