//! What is said of the groups that are explained, as one text or document.

ghost use Rattle.std.specs.Prelude.{◌≡◌, ◌++◌, codes, flat_map, IfOk, OnOk, length, map};
ghost use Rattle.std.specs.List.{join_by};
ghost use Rattle.why_core.specs.Shown.{counts_text, IsGathered};
ghost use Rattle.why_core.specs.ShownJson.{why_front};

use net_types::NoMemory;
use report_text::{append, append_number};
use std::alloc::Global;
use view_core::Format;

/// What is said of the groups that are explained, of so many.
pub(crate) fn gathered(
    alloc: Global,
    groups: usize,
    told: &[Vec<u8>],
    format: Format,
) -> Result<Vec<u8>, NoMemory>
    ensures { IfOk result (λ text. IsGathered format groups (map (λ t. t.items) told.now) text.items) }
{
    match format {
        Format::Text => text_of(alloc, groups, told),
        Format::Json => document_of(alloc, groups, told),
    }
}

fn text_of(alloc: Global, groups: usize, told: &[Vec<u8>]) -> Result<Vec<u8>, NoMemory>
    ensures { IfOk result (λ text. text.items ≡ counts_text groups (length (map (λ t. t.items) told.now)) ++ flat_map (λ t. t) (map (λ t. t.items) told.now)) }
{
    let mut text = counts_bytes(alloc, groups, told.len())?;
    append_all(&mut text, told)?;
    Ok(text)
}

fn document_of(alloc: Global, groups: usize, told: &[Vec<u8>]) -> Result<Vec<u8>, NoMemory>
    ensures { IfOk result (λ text. text.items ≡ why_front groups (length (map (λ t. t.items) told.now)) ++ join_by (λ t. t) (codes ",\n") (map (λ t. t.items) told.now) ++ codes "]}\n") }
{
    let mut text = front_bytes(alloc, groups, told.len())?;
    append_listed(&mut text, told)?;
    append(&mut text, b"]}\n")?;
    Ok(text)
}

// How many groups there are, and how many are explained.
#[tactic(auto, unfolding(crate::specs::Shown::counts_text))]
fn counts_bytes(alloc: Global, groups: usize, some: usize) -> Result<Vec<u8>, NoMemory>
    ensures { IfOk result (λ text. text.items ≡ counts_text groups some) }
{
    let mut text = Vec::new(alloc);
    append(&mut text, b"groups ")?;
    append_number(&mut text, groups)?;
    append(&mut text, b", explained ")?;
    append_number(&mut text, some)?;
    append(&mut text, b"\n\n")?;
    Ok(text)
}

fn append_all(out: &mut Vec<u8>, told: &[Vec<u8>]) -> Result<(), NoMemory>
    ensures { OnOk result (out.new.items ≡ out.old.items ++ flat_map (λ t. t) (map (λ t. t.items) told.now)) }
{
    for text in told {
        append(out, text)?;
    }
    Ok(())
}

// The schema with its version, how many groups there are, and how many are explained.
#[tactic(auto, unfolding(crate::specs::ShownJson::why_front))]
fn front_bytes(alloc: Global, groups: usize, some: usize) -> Result<Vec<u8>, NoMemory>
    ensures { IfOk result (λ text. text.items ≡ why_front groups some) }
{
    let mut text = Vec::new(alloc);
    append(
        &mut text,
        b"{\"schema\": \"diqenyu-why\", \"version\": 1, \"groups\": ",
    )?;
    append_number(&mut text, groups)?;
    append(&mut text, b", \"explained\": ")?;
    append_number(&mut text, some)?;
    append(&mut text, b",\n\"explanations\": [")?;
    Ok(text)
}

fn append_listed(out: &mut Vec<u8>, told: &[Vec<u8>]) -> Result<(), NoMemory>
    ensures { OnOk result (out.new.items ≡ out.old.items ++ join_by (λ t. t) (codes ",\n") (map (λ t. t.items) told.now)) }
{
    let [first, rest @ ..] = told else {
        return Ok(());
    };
    append(out, first)?;
    for text in rest {
        append(out, b",\n")?;
        append(out, text)?;
    }
    Ok(())
}
