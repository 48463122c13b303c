//! The devices whose ways a replaced device touches.

ghost use Rattle.std.specs.Prelude.{◌≡◌, Contains, IfOk, IsTrue, OnOk};
ghost use Rattle.live_network.specs.Shown.{AnswerAlikeAt, EndsAnswerAlike};
ghost use Rattle.live_network.specs.Touched.{AreNamed, AreTouched, HasAll, IsNamedIn};

use crate::alike::answers_alike;
use crate::near::has_name;
use net_types::{NetDevice, NoMemory, Place, Segment};
use std::alloc::Global;

/// The names of the device and of all devices with an end on a lan where an end of the device answers otherwise afterwards.
pub(crate) fn touched_names(
    alloc: Global,
    segments: &[Segment],
    before: &NetDevice,
    after: &NetDevice,
) -> Result<Vec<u32>, NoMemory>
    ensures own { IfOk result (λ r. Contains r.items after.now.name) }
    ensures touched { IfOk result (λ r. AreTouched before.now after.now segments.now r.items) }
{
    let mut names = Vec::new(alloc);
    add_name(&mut names, after.name)?;
    for segment in segments {
        add_segment(&mut names, segment, before, after)?;
    }
    Ok(names)
}

// The names of the devices on the segment, where it is a lan on which the device answers otherwise.
fn add_segment(
    names: &mut Vec<u32>,
    segment: &Segment,
    before: &NetDevice,
    after: &NetDevice,
) -> Result<(), NoMemory>
    ensures named { OnOk result (IsNamedIn before.now after.now names.new.items segment.now) }
    ensures kept { OnOk result (HasAll names.old.items names.new.items) }
{
    let ends = segment.ends.as_slice();
    if !segment.lan || ends_answer_alike(ends, before, after) {
        return Ok(());
    }
    add_ends(names, ends)
}

fn ends_answer_alike(ends: &[Place], before: &NetDevice, after: &NetDevice) -> bool
    ensures { IsTrue result → EndsAnswerAlike before.now after.now ends.now }
{
    ends.iter()
        .all(|end| end_answers_alike(*end, before, after))
}

fn end_answers_alike(end: Place, before: &NetDevice, after: &NetDevice) -> bool
    ensures { IsTrue result → end.device ≡ after.now.name → AnswerAlikeAt before.now after.now end.interface }
{
    end.device != after.name || answers_alike(before, after, end.interface)
}

fn add_ends(names: &mut Vec<u32>, ends: &[Place]) -> Result<(), NoMemory>
    ensures named { OnOk result (AreNamed ends.now names.new.items) }
    ensures kept { OnOk result (HasAll names.old.items names.new.items) }
{
    for end in ends {
        add_name(names, end.device)?;
    }
    Ok(())
}

fn add_name(names: &mut Vec<u32>, name: u32) -> Result<(), NoMemory>
    ensures named { OnOk result (Contains names.new.items name) }
    ensures kept { OnOk result (HasAll names.old.items names.new.items) }
{
    if has_name(names, name) {
        return Ok(());
    }
    names.push(name)?;
    Ok(())
}
