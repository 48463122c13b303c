//! Texts put together of parts.

ghost use Rattle.std.specs.Prelude.{◌≡◌, ◌++◌, flat_map, OnOk};
ghost use Rattle.report_text.specs.Parts.{part_bytes};

use crate::fields::{append, append_number};
use net_types::NoMemory;

/// A part of a text.
#[derive(Clone, Copy)]
pub enum TextPart<'a> {
    /// Bytes as they are.
    Bytes(&'a [u8]),
    /// A number in decimal, without leading zeros.
    Number(u128),
}

/// Adds these at the end, one behind the other. Where memory runs out, a part of them may stand there.
pub fn append_all(out: &mut Vec<u8>, parts: &[TextPart]) -> Result<(), NoMemory>
    ensures { OnOk result (out.new.items ≡ out.old.items ++ flat_map part_bytes parts.now) }
{
    for part in parts {
        append_part(out, *part)?;
    }
    Ok(())
}

fn append_part(out: &mut Vec<u8>, part: TextPart) -> Result<(), NoMemory>
    ensures { OnOk result (out.new.items ≡ out.old.items ++ part_bytes part.entry) }
{
    match part {
        TextPart::Bytes(bytes) => append(out, bytes),
        TextPart::Number(number) => append_number(out, number),
    }
}
