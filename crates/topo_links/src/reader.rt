//! Reading a link table.
ghost use Rattle.std.specs.Prelude.{◌≡◌, ◌≤◌, [], IfOk, length, map};
ghost use Rattle.std.specs.List.{list_any};
ghost use Rattle.net_text.specs.Limits.{text_limit};
ghost use Rattle.net_text.specs.Lines.{piece};
ghost use Rattle.topo_links.specs.Ends.{Gives};
ghost use Rattle.topo_links.specs.Table.{effects_after, table_of, whole_table, is_ingress, table_names};
ghost use Rattle.topo_links.specs.Draft.{IsDraft, Drafted};

use crate::draft::Draft;
use crate::{LinkFail, LinkKind, LinkLine, LinkRefusal, LinkTable};
use net_text::{Line, Span, lines, part};
use net_types::{List, NoMemory, Text};
use std::alloc::Global;

/// The link table of a text of at most 16,777,216 bytes, or its refusal.
///
/// The first refused line decides, with `BadWord`, `MissingWord` or `EndTaken`; where no line is refused and none is an
/// `ingress` line the answer is `NoIngress` at line 0. In a line the words are judged from left to right; `EndTaken`
/// stands at the interface name, also where the line is too short or too long after it.
pub fn read_links(alloc: Global, bytes: &[u8]) -> Result<LinkTable, LinkFail>
    requires { length bytes.now ≤ text_limit }
    ensures exact { Gives (λ table. table) result (table_of bytes.now) }

    // A table has no more names than its text has bytes.
    ensures names { IfOk result (λ table. length (table_names table) ≤ length bytes.now) }
{
    let table = read_table(alloc, bytes)?;
    Ok(table)
}

/// The link table of a text, or its refusal.
#[tactic(auto, unfolding(crate::specs::Table::table_of))]
fn read_table(alloc: Global, bytes: &[u8]) -> Result<LinkTable, LinkFail>
    requires { length bytes.now ≤ text_limit }
    ensures { Gives (λ table. table) result (table_of bytes.now) }
{
    let lines = lines(alloc, bytes)?;
    let rows = read_lines(alloc, bytes, &lines)?;
    finish(alloc, rows)
}

/// What the lines of a text say one after the other, or the first refusal.
fn read_lines(alloc: Global, bytes: &[u8], lines: &[Line]) -> Result<Vec<LinkLine>, LinkFail>
    ensures { Drafted (λ rows. rows.items) (effects_after bytes.now [] lines.now) result }
{
    let mut draft = Draft::new(alloc);
    add_lines(alloc, bytes, lines, &mut draft)?;
    Ok(draft.into_lines())
}

/// Adds what the lines of a text say one after the other, up to the first refusal.
fn add_lines(alloc: Global, bytes: &[u8], lines: &[Line], draft: &mut Draft) -> Result<(), LinkFail>
    requires draft { IsDraft draft.old }
    requires empty { draft.old.lines.items ≡ [] }
    ensures { Drafted (λ _. draft.new.lines.items) (effects_after bytes.now [] lines.now) result }
{
    for line in lines {
        let words = texts(alloc, bytes, line.words.as_slice())?;
        draft.add_line(alloc, line.number, &words)?;
    }
    Ok(())
}

/// The words of a line.
fn texts(alloc: Global, bytes: &[u8], spans: &[Span]) -> Result<Vec<Text>, NoMemory>
    ensures { IfOk result (λ words. words.items ≡ map (piece bytes.now) spans.now) }
{
    let mut words = Vec::with_capacity(alloc, spans.len())?;
    for span in spans {
        words.push(Text::copy_of(alloc, part(bytes, *span))?)?;
    }
    Ok(words)
}

/// Whether packets enter at this line.
fn is_ingress(line: &LinkLine) -> bool
    ensures { result ≡ is_ingress line.now }
{
    match line.kind {
        LinkKind::P2p => false,
        LinkKind::Lan => false,
        LinkKind::Ingress => true,
    }
}

/// Whether packets enter at one of the lines.
fn has_ingress(lines: &[LinkLine]) -> bool
    ensures { result ≡ list_any is_ingress lines.now }
{
    lines.iter().any(|line| is_ingress(line))
}

/// The table of lines that are all accepted.
fn finish(alloc: Global, lines: Vec<LinkLine>) -> Result<LinkTable, LinkFail>
    ensures { Gives (λ table. table) result (whole_table lines.items) }
{
    if !has_ingress(&lines) {
        return Err(LinkFail::Refused {
            kind: LinkRefusal::NoIngress,
            line: 0,
            word: Text::new(Vec::new(alloc)),
        });
    }
    Ok(LinkTable {
        lines: List::new(lines),
    })
}
