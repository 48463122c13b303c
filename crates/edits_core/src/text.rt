//! How the number of rows after an edit is written.

ghost use Rattle.std.specs.Prelude.{◌≡◌, ◌++◌, OnOk, decimal};
ghost use Rattle.edits_core.specs.Edits.{count_text};

use net_types::NoMemory;
use report_text::{append, append_number};

/// `line N affected M`. Where memory runs out, a part of the text may stand there.
#[tactic(auto, unfolding(crate::specs::Edits::count_text))]
pub(crate) fn append_count(out: &mut Vec<u8>, line: u32, count: u64) -> Result<(), NoMemory>
    ensures { OnOk result (out.new.items ≡ out.old.items ++ count_text line count) }
{
    append(out, b"line ")?;
    append_number(out, u64::from(line))?;
    append(out, b" affected ")?;
    append_number(out, count)?;
    append(out, b"\n")?;
    Ok(())
}
