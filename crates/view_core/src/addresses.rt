//! Addresses as a person reads them.
ghost use Rattle.std.specs.Prelude.{◌≡◌, ◌++◌, ◌-◌, ◌≤◌, ◌<◌, ◌^◌, OnOk};
ghost use Rattle.view_core.specs.FieldWords.{octet_text, is_whole_octet, has_whole_octets, octets_text, wildcard_text, is_prefix, prefix_of, more_addresses, addresses_text, masked_address_text, address_part};

use net_types::NoMemory;
use report_groups::{Part, Pattern, Span};
use report_text::{append, append_address, append_number};

/// An address, a prefix, the first and the last of other addresses, octets with stars between them, or an address and its wildcard.
pub(crate) fn append_address_part(out: &mut Vec<u8>, part: &Part) -> Result<(), NoMemory>
    ensures { OnOk result (out.new.items ≡ out.old.items ++ address_part part.now) }
{
    match part {
        Part::Run(span) => append_addresses(out, span),
        Part::Masked(pattern) => append_masked(out, pattern),
    }
}

#[tactic(auto, unfolding(crate::specs::FieldWords::addresses_text))]
fn append_addresses(out: &mut Vec<u8>, span: &Span) -> Result<(), NoMemory>
    ensures { OnOk result (out.new.items ≡ out.old.items ++ addresses_text span.now) }
{
    if span.low == span.high {
        append_address(out, span.low)
    } else {
        append_more(out, span)
    }
}

fn append_more(out: &mut Vec<u8>, span: &Span) -> Result<(), NoMemory>
    ensures { OnOk result (out.new.items ≡ out.old.items ++ more_addresses (prefix_of span.now) span.now) }
{
    append_address(out, span.low)?;
    match prefix_of(span) {
        Some(length) => {
            append(out, b"/")?;
            append_number(out, length)
        }
        None => {
            append(out, b" - ")?;
            append_address(out, span.high)
        }
    }
}

// The length of the prefix that a span is.
fn prefix_of(span: &Span) -> Option<u32>
    ensures { result ≡ prefix_of span.now }
{
    (0..32).find(|length| is_prefix(span, *length))
}

fn is_prefix(span: &Span, length: u32) -> bool
    requires { length < 32 }
    ensures { result ≡ is_prefix span.now length }
{
    let size = power(32 - length);
    let low = u64::from(span.low);
    low % size == 0 && u64::from(span.high) == low + size - 1
}

/// Two to the `k`, 0 to 32.
pub(crate) fn power(k: u32) -> u64
    requires { k ≤ 32 }
    ensures value { result ≡ 2 ^ k }
    ensures some { 0 < result }
    ensures most { result ≤ 2 ^ 32 }
{
    1 << k
}

#[tactic(auto, unfolding(crate::specs::FieldWords::masked_address_text))]
fn append_masked(out: &mut Vec<u8>, pattern: &Pattern) -> Result<(), NoMemory>
    ensures { OnOk result (out.new.items ≡ out.old.items ++ masked_address_text pattern.now) }
{
    if has_whole_octets(pattern.fixed) {
        append_octets(out, pattern)
    } else {
        append_wildcard(out, pattern)
    }
}

fn has_whole_octets(fixed: u32) -> bool
    ensures { result ≡ has_whole_octets fixed }
{
    is_whole_octet(fixed >> 24)
        && is_whole_octet(fixed >> 16 & 0xff)
        && is_whole_octet(fixed >> 8 & 0xff)
        && is_whole_octet(fixed & 0xff)
}

fn is_whole_octet(fixed: u32) -> bool
    ensures { result ≡ is_whole_octet fixed }
{
    fixed == 0 || fixed == 255
}

fn append_octet(out: &mut Vec<u8>, fixed: u32, bits: u32) -> Result<(), NoMemory>
    ensures { OnOk result (out.new.items ≡ out.old.items ++ octet_text fixed bits) }
{
    if fixed == 0 {
        append(out, b"*")
    } else {
        append_number(out, bits)
    }
}

#[tactic(auto, unfolding(crate::specs::FieldWords::octets_text))]
fn append_octets(out: &mut Vec<u8>, pattern: &Pattern) -> Result<(), NoMemory>
    ensures { OnOk result (out.new.items ≡ out.old.items ++ octets_text pattern.now) }
{
    append_octet(out, pattern.fixed >> 24, pattern.bits >> 24)?;
    append(out, b".")?;
    append_octet(out, pattern.fixed >> 16 & 0xff, pattern.bits >> 16 & 0xff)?;
    append(out, b".")?;
    append_octet(out, pattern.fixed >> 8 & 0xff, pattern.bits >> 8 & 0xff)?;
    append(out, b".")?;
    append_octet(out, pattern.fixed & 0xff, pattern.bits & 0xff)
}

// An address and its wildcard, in which the open bits are 1.
#[tactic(auto, unfolding(crate::specs::FieldWords::wildcard_text))]
fn append_wildcard(out: &mut Vec<u8>, pattern: &Pattern) -> Result<(), NoMemory>
    ensures { OnOk result (out.new.items ≡ out.old.items ++ wildcard_text pattern.now) }
{
    append_address(out, pattern.bits)?;
    append(out, b" ")?;
    append_address(out, u32::MAX - pattern.fixed)
}
