//! The lines of an audit of access lists.

ghost use Rattle.std.specs.Prelude.{◌≡◌, ◌++◌, OnOk};
ghost use Rattle.result_text.specs.AuditText.{by_line, entry_line, kind_name, kinds_text, line, list_line, name_text, total_line};

use net_types::{NoMemory, Text};
use report_text::TextPart::{Bytes, Number};
use report_text::append_all;

/// The line of a list, with how many of its entries are dead, and how many redundant.
pub fn append_list_line(
    out: &mut Vec<u8>,
    file: &Text,
    name: &Text,
    dead: usize,
    redundant: usize,
) -> Result<(), NoMemory>
    ensures { OnOk result (out.new.items ≡ out.old.items ++ list_line file.now name.now dead redundant) }
{
    append_name(out, file, name)?;
    append_kinds(out, dead, redundant)
}

#[tactic(auto, unfolding(crate::specs::AuditText::name_text))]
fn append_name<'a>(out: &mut Vec<u8>, file: &'a Text, name: &'a Text) -> Result<(), NoMemory>
    ensures { OnOk result (out.new.items ≡ out.old.items ++ name_text file.now name.now) }
{
    append_all(
        out,
        &[
            Bytes(b"list "),
            Bytes(file.as_bytes()),
            Bytes(b" "),
            Bytes(name.as_bytes()),
        ],
    )
}

#[tactic(auto, unfolding(crate::specs::AuditText::kinds_text))]
fn append_kinds(out: &mut Vec<u8>, dead: usize, redundant: usize) -> Result<(), NoMemory>
    ensures { OnOk result (out.new.items ≡ out.old.items ++ kinds_text dead redundant) }
{
    append_all(
        out,
        &[
            Bytes(b" dead "),
            Number(dead as u128),
            Bytes(b" redundant "),
            Number(redundant as u128),
            Bytes(b"\n"),
        ],
    )
}

/// The line of an entry that could go: it decides no packet, or is redundant.
#[tactic(auto, unfolding(crate::specs::AuditText::entry_line))]
pub fn append_entry_line(out: &mut Vec<u8>, sequence: u32, dead: bool) -> Result<(), NoMemory>
    ensures { OnOk result (out.new.items ≡ out.old.items ++ entry_line sequence dead) }
{
    append_all(
        out,
        &[
            Bytes(b"entry "),
            Number(sequence.into()),
            Bytes(b" "),
            Bytes(kind_name(dead)),
            Bytes(b"\n"),
        ],
    )
}

/// What a finding is called.
pub fn kind_name(dead: bool) -> &'static [u8]
    ensures { result.now ≡ kind_name dead }
{
    match dead {
        true => b"dead",
        false => b"redundant",
    }
}

/// The line of an earlier entry that takes packets, with their number of rows.
#[tactic(auto, unfolding(crate::specs::AuditText::by_line))]
pub fn append_by_line(out: &mut Vec<u8>, sequence: u32, rows: usize) -> Result<(), NoMemory>
    ensures { OnOk result (out.new.items ≡ out.old.items ++ by_line sequence rows) }
{
    append_all(
        out,
        &[
            Bytes(b"by "),
            Number(sequence.into()),
            Bytes(b" rows "),
            Number(rows as u128),
            Bytes(b"\n"),
        ],
    )
}

/// The line of a row.
pub fn append_row_line(out: &mut Vec<u8>, row: &[u8]) -> Result<(), NoMemory>
    ensures { OnOk result (out.new.items ≡ out.old.items ++ line row.now) }
{
    append_all(out, &[Bytes(row), Bytes(b"\n")])
}

/// The last line, with the number of all findings.
#[tactic(auto, unfolding(crate::specs::AuditText::total_line))]
pub fn append_total_line(out: &mut Vec<u8>, count: u128) -> Result<(), NoMemory>
    ensures { OnOk result (out.new.items ≡ out.old.items ++ total_line count) }
{
    append_all(out, &[Bytes(b"findings "), Number(count), Bytes(b"\n")])
}
