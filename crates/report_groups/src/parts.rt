//! Spans and patterns as the parts of what is shown.
ghost use Rattle.std.specs.Prelude.{◌≡◌, ◌||◌, ℕ, IfOk, OnOk};
ghost use Rattle.std.specs.List.{list_any};
ghost use Rattle.report_groups.specs.Values.{matches, covers, is_in_part, is_listed};

use crate::types::{Part, Pattern, Span, Values};
use net_types::{List, NoMemory};
use std::alloc::Global;

/// The values of these spans and patterns, or all but these.
pub(crate) fn listed(
    alloc: Global,
    negated: bool,
    spans: &[Span],
    others: &[Pattern],
) -> Result<Values, NoMemory>
    ensures negated { IfOk result (λ values. values.negated ≡ negated) }
    ensures parts { IfOk result (λ values. (v : ℕ) → list_any (is_in_part v) values.parts ≡ is_listed v spans.now others.now) }
{
    let mut parts = Vec::new(alloc);
    add_spans(&mut parts, spans)?;
    add_others(&mut parts, others)?;
    Ok(Values {
        negated,
        parts: List::new(parts),
    })
}

fn add_spans(parts: &mut Vec<Part>, spans: &[Span]) -> Result<(), NoMemory>
    ensures { OnOk result ((v : ℕ) → list_any (is_in_part v) parts.new.items ≡ (list_any (is_in_part v) parts.old.items || list_any (covers v) spans.now)) }
{
    for span in spans {
        parts.push(Part::Run(*span))?;
    }
    Ok(())
}

fn add_others(parts: &mut Vec<Part>, others: &[Pattern]) -> Result<(), NoMemory>
    ensures { OnOk result ((v : ℕ) → list_any (is_in_part v) parts.new.items ≡ (list_any (is_in_part v) parts.old.items || list_any (matches v) others.now)) }
{
    for pattern in others {
        parts.push(Part::Masked(*pattern))?;
    }
    Ok(())
}
