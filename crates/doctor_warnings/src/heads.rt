//! What lines of notes have in common: where they are about, and what stands there.
//!
//! Each function adds a text at the end. Where memory runs out, a part of it may stand there.
ghost use Rattle.std.specs.Prelude.{◌≡◌, ◌++◌, OnOk};
ghost use Rattle.doctor_warnings.specs.Texts.{head_text, place_text, shown_behind, shown_word};

use finding_texts::append_shown;
use net_types::{NoMemory, Text};
use report_text::{append, append_number};

/// `PATH:LINE`
pub(crate) fn append_place(out: &mut Vec<u8>, path: &Text, line: u64) -> Result<(), NoMemory>
    ensures { OnOk result (out.new.items ≡ out.old.items ++ place_text path.now line) }
{
    append_shown(out, path.as_bytes())?;
    if line == 0 {
        return Ok(());
    }
    append(out, b":")?;
    append_number(out, line)
}

/// `PATH:LINE: `
pub(crate) fn append_head(out: &mut Vec<u8>, path: &Text, line: u64) -> Result<(), NoMemory>
    ensures { OnOk result (out.new.items ≡ out.old.items ++ head_text path.now line) }
{
    append_place(out, path, line)?;
    append(out, b": ")
}

/// A word behind a blank, or nothing where there is none.
pub(crate) fn append_word(out: &mut Vec<u8>, word: &Text) -> Result<(), NoMemory>
    ensures { OnOk result (out.new.items ≡ out.old.items ++ shown_word word.now) }
{
    if word.as_bytes().is_empty() {
        return Ok(());
    }
    append(out, b" ")?;
    append_shown(out, word.as_bytes())
}

/// A text of a file behind a colon, or nothing.
pub(crate) fn append_behind(out: &mut Vec<u8>, text: &Text) -> Result<(), NoMemory>
    ensures { OnOk result (out.new.items ≡ out.old.items ++ shown_behind text.now) }
{
    if text.as_bytes().is_empty() {
        return Ok(());
    }
    append(out, b": ")?;
    append_shown(out, text.as_bytes())
}
