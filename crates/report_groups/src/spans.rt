//! Patterns as spans of values.
ghost use Rattle.std.specs.Prelude.{◌≡◌, ◌≤◌, ◌<◌, ◌^◌, ◌||◌, ℕ, true, IsTrue, IfOk, IfSome};
ghost use Rattle.std.specs.List.{list_any};
ghost use Rattle.report_groups.specs.Values.{matches, covers, is_listed, holds, HoldSame, StandFor};

use crate::gaps::spans_between;
use crate::parts::listed;
use crate::types::{Pattern, Span, Values};
use net_types::NoMemory;
use std::alloc::Global;

/// The values of a field of `width` bits, 0 to 32, as a person reads them: exactly those that the patterns hold.
///
/// How the values are divided isn't promised.
pub(crate) fn values_of(alloc: Global, patterns: &[Pattern], width: u32) -> Result<Values, NoMemory>
    requires { width ≤ 32 }
    ensures { IfOk result (λ values. StandFor width patterns.now values) }
{
    let (found, others) = parted(alloc, patterns, width)?;
    let spans = joined(alloc, found)?;
    if is_whole(&spans, width) {
        return listed(alloc, false, &spans, &[]);
    }
    shorter(alloc, &spans, &others, width)
}

// Whether the spans are one that holds each value of `width` bits.
fn is_whole(spans: &[Span], width: u32) -> bool
    requires { width ≤ 32 }
    ensures { IsTrue result → (v : ℕ) → v < 2 ^ width → list_any (covers v) spans.now ≡ true }
{
    match spans {
        [only] => only.low == 0 && u64::from(only.high) + 1 == power(width),
        _ => false,
    }
}

// The values as they are listed, or all but those between them where these are fewer spans.
fn shorter(
    alloc: Global,
    spans: &[Span],
    others: &[Pattern],
    width: u32,
) -> Result<Values, NoMemory>
    requires { width ≤ 32 }
    ensures { IfOk result (λ values. (v : ℕ) → v < 2 ^ width → holds v values ≡ is_listed v spans.now others.now) }
{
    if others.is_empty() {
        if let Some(between) = spans_between(alloc, spans, width)? {
            if between.len() < spans.len() {
                return listed(alloc, true, &between, &[]);
            }
        }
    }
    listed(alloc, false, spans, others)
}

// The span of each pattern that is one, and the others. Which they are is for the reader's sake, and no clause says it.
fn parted(
    alloc: Global,
    patterns: &[Pattern],
    width: u32,
) -> Result<(Vec<Span>, Vec<Pattern>), NoMemory>
    requires { width ≤ 32 }
    ensures { IfOk result (λ r. HoldSame width patterns.now r.0.items r.1.items) }
{
    let mut spans = Vec::new(alloc);
    let mut others = Vec::new(alloc);
    for pattern in patterns {
        match span_of(pattern, width) {
            Some(span) => spans.push(span)?,
            None => others.push(*pattern)?,
        }
    }
    Ok((spans, others))
}

// The span of a pattern, where all bits but the last ones are fixed.
fn span_of(pattern: &Pattern, width: u32) -> Option<Span>
    requires { width ≤ 32 }
    ensures { IfSome result (λ s. (v : ℕ) → v < 2 ^ width → covers v s ≡ matches v pattern.now) }
{
    for free in 0..width + 1 {
        if let Some(span) = span_with(pattern, width, free) {
            return Some(span);
        }
    }
    None
}

// The span of a pattern whose last `free` bits are open and all others fixed.
fn span_with(pattern: &Pattern, width: u32, free: u32) -> Option<Span>
    requires width { width ≤ 32 }
    requires free { free ≤ width }
    ensures { IfSome result (λ s. (v : ℕ) → v < 2 ^ width → covers v s ≡ matches v pattern.now) }
{
    let size = power(free);
    let whole = power(width);
    let low = u64::from(pattern.bits);
    if size > whole || u64::from(pattern.fixed) != whole - size || low % size != 0 {
        return None;
    }
    let Ok(high) = u32::try_from(low + size - 1) else {
        return None;
    };
    Some(Span {
        low: pattern.bits,
        high,
    })
}

// Two to the `k`.
#[tactic(auto, using(crate::proofs::SpanLemmas::power_room))]
pub(crate) fn power(k: u32) -> u64
    requires { k ≤ 32 }
    ensures value { result ≡ 2 ^ k }
    ensures some { 0 < result }
    ensures most { result ≤ 2 ^ 32 }
{
    1 << k
}

// The spans in order, those that touch as one.
fn joined(alloc: Global, spans: Vec<Span>) -> Result<Vec<Span>, NoMemory>
    ensures { IfOk result (λ joined. (v : ℕ) → list_any (covers v) joined.items ≡ list_any (covers v) spans.items) }
{
    let mut spans = spans;
    spans.sort_by_key(|s| s.low)?;
    merged(alloc, &spans)
}

fn merged(alloc: Global, spans: &[Span]) -> Result<Vec<Span>, NoMemory>
    ensures { IfOk result (λ merged. (v : ℕ) → list_any (covers v) merged.items ≡ list_any (covers v) spans.now) }
{
    let mut merged = Vec::new(alloc);
    for span in spans {
        add(&mut merged, *span)?;
    }
    Ok(merged)
}

// Adds a span at the end, or to the last one where they touch.
fn add(merged: &mut Vec<Span>, span: Span) -> Result<(), NoMemory>
    ensures { IfOk result (λ _. (v : ℕ) → list_any (covers v) merged.new.items ≡ (list_any (covers v) merged.old.items || covers v span)) }
{
    let Some(last) = merged.pop() else {
        merged.push(span)?;
        return Ok(());
    };
    if let Some(both) = both(last, span) {
        merged.push(both)?;
        return Ok(());
    }
    merged.push(last)?;
    merged.push(span)?;
    Ok(())
}

// Two spans as one, where the second begins in the first or just behind it.
fn both(a: Span, b: Span) -> Option<Span>
    ensures { IfSome result (λ s. (v : ℕ) → covers v s ≡ (covers v a || covers v b)) }
{
    if a.low > b.low || u64::from(b.low) > u64::from(a.high) + 1 {
        return None;
    }
    Some(Span {
        low: a.low,
        high: if a.high < b.high { b.high } else { a.high },
    })
}
