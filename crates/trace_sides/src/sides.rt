//! Where two traces part.

ghost use Rattle.std.specs.Prelude.{◌≡◌, ◌≤◌, IfOk, length};
ghost use Rattle.std.specs.Str.{bytes_eq};
ghost use Rattle.walk_trace.specs.TraceText.{state_text};
ghost use Rattle.trace_sides.specs.Sides.{shared, shared_from};

use net_types::{Names, NoMemory};
use std::alloc::Global;
use walk_trace::{Trace, TraceState, state_bytes};

/// How many states two traces begin with: those of which the same is told in both, in the same order.
///
/// # Errors
///
/// There was no memory.
#[tactic(auto, unfolding(crate::specs::Sides::shared))]
pub fn shared(alloc: Global, names: &Names, old: &Trace, new: &Trace) -> Result<usize, NoMemory>
    ensures count { IfOk result (λ n. n ≡ shared names.now old.now new.now) }
    ensures within_old { IfOk result (λ n. n ≤ length old.now.states) }
    ensures within_new { IfOk result (λ n. n ≤ length new.now.states) }
{
    shared_states(alloc, names, old.states.as_slice(), new.states.as_slice())
}

fn shared_states(
    alloc: Global,
    names: &Names,
    old: &[TraceState],
    new: &[TraceState],
) -> Result<usize, NoMemory>
    ensures count { IfOk result (λ n. n ≡ shared_from names.now 1 old.now new.now) }
    ensures within_old { IfOk result (λ n. n ≤ length old.now) }
    ensures within_new { IfOk result (λ n. n ≤ length new.now) }
{
    let most = old.len().min(new.len());
    for i in 0..most {
        if !are_told_alike(alloc, names, i + 1, &old[i], &new[i])? {
            return Ok(i);
        }
    }
    Ok(most)
}

// Whether the same is told of two states under this number.
fn are_told_alike(
    alloc: Global,
    names: &Names,
    number: usize,
    old: &TraceState,
    new: &TraceState,
) -> Result<bool, NoMemory>
    ensures { IfOk result (λ alike. alike ≡ bytes_eq (state_text names.now number old.now) (state_text names.now number new.now)) }
{
    let old = state_bytes(alloc, names, number, old)?;
    let new = state_bytes(alloc, names, number, new)?;
    Ok(old.as_slice() == new.as_slice())
}
