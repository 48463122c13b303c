//! The values between spans.
ghost use Rattle.std.specs.Prelude.{◌≡◌, ◌≤◌, ◌<◌, ◌^◌, ◌||◌, ◌&&◌, ℕ, not, nat_le, nat_lt, IfOk, IfSome, OnOk};
ghost use Rattle.std.specs.List.{list_any};
ghost use Rattle.report_groups.specs.Values.{covers};

use crate::spans::power;
use crate::types::Span;
use net_types::NoMemory;
use std::alloc::Global;

/// The values of `width` bits, 0 to 32, that no span holds, in order. There are none where the spans aren't in order and apart.
pub(crate) fn spans_between(
    alloc: Global,
    spans: &[Span],
    width: u32,
) -> Result<Option<Vec<Span>>, NoMemory>
    requires { width ≤ 32 }
    ensures { IfOk result (λ found. IfSome found (λ between. (v : ℕ) → v < 2 ^ width → list_any (covers v) between.items ≡ not (list_any (covers v) spans.now))) }
{
    let mut between = Vec::new(alloc);
    let mut next: u64 = 0;
    for span in spans {
        if u64::from(span.low) < next || span.high < span.low {
            return Ok(None);
        }
        add_between(&mut between, next, u64::from(span.low))?;
        next = u64::from(span.high) + 1;
    }
    add_between(&mut between, next, power(width))?;
    Ok(Some(between))
}

// Adds the values from the first number on that are below the second, where there are any.
fn add_between(between: &mut Vec<Span>, from: u64, to: u64) -> Result<(), NoMemory>
    requires { to ≤ 2 ^ 32 }
    ensures { OnOk result ((v : ℕ) → list_any (covers v) between.new.items ≡ (list_any (covers v) between.old.items || (nat_le from v && nat_lt v to))) }
{
    if from < to {
        between.push(Span {
            low: from as u32,
            high: (to - 1) as u32,
        })?;
    }
    Ok(())
}
