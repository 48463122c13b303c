//! The text of two traces side by side.

ghost use Rattle.std.specs.Prelude.{◌≡◌, ◌≤◌, ◌<◌, ◌+◌, ◌^◌, ◌++◌, codes, IfOk, OnOk, length};
ghost use Rattle.report_text.specs.ReportText.{label_text};
ghost use Rattle.walk_trace.specs.TraceText.{states_text};
ghost use Rattle.trace_sides.specs.Indented.{indented};
ghost use Rattle.trace_sides.specs.Sides.{both_text, first_text, rest_text, sides_at, sides_text};

use crate::indented::append_indented;
use crate::sides::shared;
use net_types::{Names, NoMemory};
use report_text::{append, label_bytes};
use std::alloc::Global;
use walk_trace::{Trace, TraceState, state_bytes};

/// Two traces of one packet, of the old and of the new network: behind `both:` the states that both begin with, where there is one,
/// and behind `old:` and `new:` what each goes on with, its further states and the outcome. The lines are those of `trace_bytes`,
/// each behind two blanks.
///
/// # Errors
///
/// There was no memory.
#[tactic(auto, unfolding(crate::specs::Sides::sides_text))]
pub fn sides_bytes(
    alloc: Global,
    names: &Names,
    old: &Trace,
    new: &Trace,
) -> Result<Vec<u8>, NoMemory>
    ensures text { IfOk result (λ text. text.items ≡ sides_text names.now old.now new.now) }
{
    let count = shared(alloc, names, old, new)?;
    sides_at(alloc, names, count, old, new)
}

#[tactic(auto, unfolding(crate::specs::Sides::sides_at))]
fn sides_at(
    alloc: Global,
    names: &Names,
    count: usize,
    old: &Trace,
    new: &Trace,
) -> Result<Vec<u8>, NoMemory>
    requires within_old { count ≤ length old.now.states }
    requires within_new { count ≤ length new.now.states }
    ensures { IfOk result (λ text. text.items ≡ sides_at names.now count old.now new.now) }
{
    let both = first_bytes(alloc, names, count, old)?;
    let old_rest = rest_bytes(alloc, names, count, old)?;
    let new_rest = rest_bytes(alloc, names, count, new)?;
    let mut text = Vec::new(alloc);
    append_both(&mut text, &both)?;
    append(&mut text, b"old:\n")?;
    append_indented(&mut text, &old_rest)?;
    append(&mut text, b"new:\n")?;
    append_indented(&mut text, &new_rest)?;
    Ok(text)
}

fn append_both(out: &mut Vec<u8>, text: &[u8]) -> Result<(), NoMemory>
    ensures { OnOk result (out.new.items ≡ out.old.items ++ both_text text.now) }
{
    match text {
        [] => Ok(()),
        [_, ..] => {
            append(out, b"both:\n")?;
            append_indented(out, text)
        }
    }
}

/// The first states of a trace, so many.
///
/// # Errors
///
/// There was no memory.
#[tactic(auto, unfolding(crate::specs::Sides::first_text))]
pub fn first_bytes(
    alloc: Global,
    names: &Names,
    count: usize,
    trace: &Trace,
) -> Result<Vec<u8>, NoMemory>
    requires { count ≤ length trace.now.states }
    ensures { IfOk result (λ text. text.items ≡ first_text names.now count trace.now) }
{
    let (first, _) = trace.states.as_slice().split_at(count);
    let mut text = Vec::new(alloc);
    append_states(alloc, &mut text, names, 0, first)?;
    Ok(text)
}

/// What a trace goes on with behind so many states: the further ones, and the outcome.
///
/// # Errors
///
/// There was no memory.
#[tactic(auto, unfolding(crate::specs::Sides::rest_text))]
pub fn rest_bytes(
    alloc: Global,
    names: &Names,
    count: usize,
    trace: &Trace,
) -> Result<Vec<u8>, NoMemory>
    requires { count ≤ length trace.now.states }
    ensures { IfOk result (λ text. text.items ≡ rest_text names.now count trace.now) }
{
    let (_, rest) = trace.states.as_slice().split_at(count);
    let outcome = label_bytes(alloc, names, &trace.outcome)?;
    let mut text = Vec::new(alloc);
    append_states(alloc, &mut text, names, count, rest)?;
    append(&mut text, b"outcome ")?;
    append(&mut text, &outcome)?;
    append(&mut text, b"\n")?;
    Ok(text)
}

// Adds states, numbered behind so many.
fn append_states(
    alloc: Global,
    out: &mut Vec<u8>,
    names: &Names,
    before: usize,
    states: &[TraceState],
) -> Result<(), NoMemory>
    requires { before + length states.now < 2 ^ 64 }
    ensures { OnOk result (out.new.items ≡ out.old.items ++ states_text names.now (before + 1) states.now) }
{
    let mut number = before;
    for state in states {
        number += 1;
        let text = state_bytes(alloc, names, number, state)?;
        append(out, &text)?;
    }
    Ok(())
}
