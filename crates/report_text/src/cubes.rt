//! Cubes and headers as text: the six fields, each behind its name.

ghost use Rattle.std.specs.Prelude.{◌≡◌, ◌++◌, IfOk, OnOk};
ghost use Rattle.report_text.specs.FieldText.{cube_text, fields_text, header_text};

use crate::fields::{append, append_address_field, append_number_field};
use hdr_bits::{Cube, Header};
use net_types::NoMemory;
use std::alloc::Global;

/// A cube as text: `dst F src F proto F dport F sport F flags F`.
///
/// A field `F` of which no bit is fixed is `*`. One of which each bit is fixed is a dotted address (`dst`, `src`)
/// or a decimal number. An address of which the first `len` bits are fixed, and no other one, is `A/len`, the notation
/// of RFC 4632. Each other field is a digit for each of its bits, 0, 1 or `*`, the most significant one first.
pub fn cube_bytes(alloc: Global, c: &Cube) -> Result<Vec<u8>, NoMemory>
    ensures { IfOk result (λ text. text.items ≡ cube_text c.now) }
{
    let mut text = Vec::new(alloc);
    append_cube(&mut text, c)?;
    Ok(text)
}

/// A header as text: that of the cube of itself alone.
#[tactic(auto, unfolding(crate::specs::FieldText::header_text))]
pub fn header_bytes(alloc: Global, h: &Header) -> Result<Vec<u8>, NoMemory>
    ensures { IfOk result (λ text. text.items ≡ header_text h.now) }
{
    let mut text = Vec::new(alloc);
    append_fields(&mut text, &EVERY_PLACE, h)?;
    Ok(text)
}

// The mask of each field of which all bits are fixed.
const EVERY_PLACE: Header = Header {
    dst: u32::MAX,
    src: u32::MAX,
    proto: u8::MAX,
    dport: u16::MAX,
    sport: u16::MAX,
    flags: u8::MAX,
};

#[tactic(auto, unfolding(crate::specs::FieldText::cube_text))]
pub(crate) fn append_cube(out: &mut Vec<u8>, c: &Cube) -> Result<(), NoMemory>
    ensures { OnOk result (out.new.items ≡ out.old.items ++ cube_text c.now) }
{
    let (Some(fixed), Some(bits)) = (Header::from_bits(c.fixed), Header::from_bits(c.bits)) else {
        unreachable!("a cube has 112 bits");
    };
    append_fields(out, &fixed, &bits)
}

// The fields of a cube with these fixed bits, and these digits at them.
#[tactic(auto, unfolding(crate::specs::FieldText::fields_text))]
fn append_fields(out: &mut Vec<u8>, fixed: &Header, bits: &Header) -> Result<(), NoMemory>
    ensures { OnOk result (out.new.items ≡ out.old.items ++ fields_text fixed.now bits.now) }
{
    append(out, b"dst ")?;
    append_address_field(out, fixed.dst, bits.dst)?;
    append(out, b" src ")?;
    append_address_field(out, fixed.src, bits.src)?;
    append(out, b" proto ")?;
    append_number_field(out, 8, fixed.proto.into(), bits.proto.into())?;
    append(out, b" dport ")?;
    append_number_field(out, 16, fixed.dport.into(), bits.dport.into())?;
    append(out, b" sport ")?;
    append_number_field(out, 16, fixed.sport.into(), bits.sport.into())?;
    append(out, b" flags ")?;
    append_number_field(out, 8, fixed.flags.into(), bits.flags.into())
}
