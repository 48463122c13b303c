//! Texts, numbers and bytes of a file at the end of a text.
ghost use Rattle.std.specs.Prelude.{◌≡◌, ◌<◌, ◌++◌, OnOk, decimal};
ghost use Rattle.report_text.specs.FieldText.{address_text};
ghost use Rattle.finding_texts.specs.Shown.{hex_digit, shown, shown_byte};

use net_types::{NoMemory, Text};
use report_text::append;

/// Bytes of a file, without a control character.
pub fn append_shown(out: &mut Vec<u8>, text: &[u8]) -> Result<(), NoMemory>
    ensures { OnOk result (out.new.items ≡ out.old.items ++ shown text.now) }
{
    for b in text {
        append_byte(out, *b)?;
    }
    Ok(())
}

/// A text of a file, without a control character.
pub(crate) fn append_text(out: &mut Vec<u8>, text: &Text) -> Result<(), NoMemory>
    ensures { OnOk result (out.new.items ≡ out.old.items ++ shown text.now) }
{
    append_shown(out, text.as_bytes())
}

#[tactic(auto, unfolding(crate::specs::Shown::shown_byte))]
fn append_byte(out: &mut Vec<u8>, b: u8) -> Result<(), NoMemory>
    ensures { OnOk result (out.new.items ≡ out.old.items ++ shown_byte b) }
{
    if b < 32 || b == 127 {
        append(out, &[b'\\', b'x', hex_digit(b / 16), hex_digit(b % 16)])
    } else {
        append(out, &[b])
    }
}

fn hex_digit(digit: u8) -> u8
    requires { digit < 16 }
    ensures { result ≡ hex_digit digit }
{
    if digit < 10 { 48 + digit } else { 87 + digit }
}
