//! How variants are written.

ghost use Rattle.std.specs.Prelude.{◌≡◌, ◌++◌, OnOk, nat_lt};
ghost use Rattle.report_text.specs.ReportText.{report_text, row_count};
ghost use Rattle.variants_core.specs.Report.{count_line, text_if, variant_line};

use net_types::{Names, NoMemory, Section, Text};
use report_text::TextPart::{Bytes, Number};
use report_text::{append, append_all, append_number, report_bytes};
use std::alloc::Global;

/// The line of a variant and, where it has a row, its report. Where memory runs out, a part of the text may stand there.
pub(crate) fn append_compared(
    alloc: Global,
    out: &mut Vec<u8>,
    names: &Names,
    name: &Text,
    sections: &[Section],
    count: u128,
) -> Result<(), NoMemory>
    requires { count ≡ row_count sections.now }
    ensures { OnOk result (out.new.items ≡ (out.old.items ++ variant_line name.now count) ++ text_if (nat_lt 0 count) (report_text names.now sections.now)) }
{
    append_line(out, name, count)?;
    if count > 0 {
        append(out, &report_bytes(alloc, names, sections)?)?;
    }
    Ok(())
}

#[tactic(auto, unfolding(crate::specs::Report::variant_line))]
fn append_line(out: &mut Vec<u8>, name: &Text, count: u128) -> Result<(), NoMemory>
    ensures { OnOk result (out.new.items ≡ out.old.items ++ variant_line name.now count) }
{
    append_all(
        out,
        &[
            Bytes(b"variant "),
            Bytes(name.as_bytes()),
            Bytes(b" affected "),
            Number(count),
            Bytes(b"\n"),
        ],
    )
}

/// How many variants there are.
#[tactic(auto, unfolding(crate::specs::Report::count_line))]
pub(crate) fn append_count(out: &mut Vec<u8>, count: usize) -> Result<(), NoMemory>
    ensures { OnOk result (out.new.items ≡ out.old.items ++ count_line count) }
{
    append(out, b"variants ")?;
    append_number(out, count as u64)?;
    append(out, b"\n")?;
    Ok(())
}

/// How many rows all sections have.
pub(crate) fn row_count(sections: &[Section]) -> u128
    ensures { result ≡ row_count sections.now }
{
    let mut rows: u128 = 0;
    for section in sections {
        rows += section.rows.as_slice().len() as u128;
    }
    rows
}
