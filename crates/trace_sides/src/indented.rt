//! Lines that stand two blanks to the right.

ghost use Rattle.std.specs.Prelude.{◌≡◌, ◌++◌, OnOk};
ghost use Rattle.trace_sides.specs.Indented.{indented, indented_byte};

use net_types::NoMemory;

/// Adds a text with two blanks before each of its lines. Where memory runs out, a part of it may stand there.
pub(crate) fn append_indented(out: &mut Vec<u8>, text: &[u8]) -> Result<(), NoMemory>
    ensures { OnOk result (out.new.items ≡ out.old.items ++ indented text.now) }
{
    let mut begins = true;
    for byte in text {
        append_byte(out, begins, *byte)?;
        begins = *byte == b'\n';
    }
    Ok(())
}

fn append_byte(out: &mut Vec<u8>, begins: bool, byte: u8) -> Result<(), NoMemory>
    ensures { OnOk result (out.new.items ≡ out.old.items ++ indented_byte begins byte) }
{
    if begins {
        out.extend_from_slice(b"  ")?;
    }
    out.push(byte)?;
    Ok(())
}
