//! The segments over which some devices send.

ghost use Rattle.std.specs.Prelude.{◌≡◌, ◌==◌, IfOk, filter};
ghost use Rattle.std.specs.List.{list_any};
ghost use Rattle.live_network.specs.Near.{touches};

use net_types::{Links, List, NoMemory, Segment};
use std::alloc::Global;

/// Links of those segments that have an end at a device of one of these names. No packet enters there.
pub(crate) fn near_links(
    alloc: Global,
    segments: &[Segment],
    names: &[u32],
) -> Result<Links, NoMemory>
    ensures { IfOk result (λ r. r.segments ≡ filter (touches names.now) segments.now) }
{
    let mut near = Vec::new(alloc);
    for segment in segments {
        if touches(names, segment) {
            near.push(copy_of(alloc, segment)?)?;
        }
    }
    Ok(Links {
        segments: List::new(near),
        ingress: List::empty(alloc),
    })
}

fn copy_of(alloc: Global, segment: &Segment) -> Result<Segment, NoMemory>
    ensures { IfOk result (λ r. r ≡ segment.now) }
{
    Ok(Segment {
        lan: segment.lan,
        ends: segment.ends.copy_items(alloc)?,
    })
}

fn touches(names: &[u32], segment: &Segment) -> bool
    ensures { result ≡ touches names.now segment.now }
{
    segment
        .ends
        .as_slice()
        .iter()
        .any(|end| has_name(names, end.device))
}

/// Whether the name is one of these.
pub(crate) fn has_name(names: &[u32], name: u32) -> bool
    ensures { result ≡ list_any (λ n. n == name) names.now }
{
    names.iter().any(|n| *n == name)
}
