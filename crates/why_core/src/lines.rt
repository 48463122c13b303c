//! The line of a report at which it is refused.

ghost use Rattle.std.specs.Prelude.{◌≡◌, ◌≤◌, ◌<◌, IfOk, IfSome, length, position};
ghost use Rattle.std.specs.Str.{bytes_eq};
ghost use Rattle.std.specs.Option.{option_copied};
ghost use Rattle.view_core.specs.Names.{text_lines};
ghost use Rattle.view_core.specs.Reports.{report_limit};
ghost use Rattle.why_core.specs.Lines.{head_or_end, head_text, line_of};

use net_types::{Names, NoMemory, Section};
use report_text::{append, append_number, append_place};
use std::alloc::Global;

/// The line with which a section begins; nothing where there is none.
pub(crate) fn head_or_end(
    alloc: Global,
    names: &Names,
    section: Option<&Section>,
) -> Result<Vec<u8>, NoMemory>
    ensures { IfOk result (λ text. text.items ≡ head_or_end names.now (option_copied section.entry)) }
{
    match section {
        None => Ok(Vec::new(alloc)),
        Some(section) => head_bytes(alloc, names, section),
    }
}

#[tactic(auto, unfolding(crate::specs::Lines::head_text))]
fn head_bytes(alloc: Global, names: &Names, section: &Section) -> Result<Vec<u8>, NoMemory>
    ensures { IfOk result (λ text. text.items ≡ head_text names.now section.now) }
{
    let mut text = Vec::new(alloc);
    append(&mut text, b"ingress ")?;
    append_place(&mut text, names, section.place)?;
    append(&mut text, b" rows ")?;
    append_number(&mut text, section.rows.as_slice().len())?;
    Ok(text)
}

/// The first line of the text that reads so, from 1.
pub(crate) fn line_of(bytes: &[u8], line: &[u8]) -> u64
    requires { length bytes.now ≤ report_limit }
    ensures { result ≡ line_of bytes.now line.now }
{
    match position_of(bytes, line) {
        Some(position) => position as u64 + 1,
        None => 1,
    }
}

fn position_of(bytes: &[u8], line: &[u8]) -> Option<usize>
    ensures place { result ≡ position (bytes_eq line.now) (text_lines bytes.now) }
    ensures inside { IfSome result (λ position. position < length (text_lines bytes.now)) }
{
    bytes.split(|b| *b == b'\n').position(|text| line == text)
}
