//! Groups while they are made.
ghost use Rattle.std.specs.Prelude.{◌≡◌, ◌<◌, length, map, IfOk, OnOk};
ghost use Rattle.report_groups.specs.Groups.{field_at, with_field, without, HasFields};
ghost use Rattle.report_groups.specs.Drafts.{shown};

use crate::types::{Draft, Group, Pattern};
use net_types::{List, NoMemory};
use std::alloc::Global;
use std::mem;

/// Takes field `k` out, and leaves nothing there.
pub(crate) fn take_field(alloc: Global, draft: &mut Draft, k: usize) -> Vec<Pattern>
    requires { k < 6 }
    ensures taken { result.items ≡ field_at k (shown draft.old) }
    ensures left { shown draft.new ≡ without k (shown draft.old) }
{
    mem::replace(&mut draft.fields[k], Vec::new(alloc))
}

/// Puts field `k` in.
pub(crate) fn put_field(draft: &mut Draft, k: usize, patterns: Vec<Pattern>)
    requires { k < 6 }
    ensures { shown draft.new ≡ with_field k patterns.items (shown draft.old) }
{
    draft.fields[k] = patterns;
}

/// The draft as a group.
pub(crate) fn finished(alloc: Global, draft: Draft) -> Result<Group, NoMemory>
    ensures is { IfOk result (λ group. group ≡ shown draft) }
    ensures six { IfOk result HasFields }
{
    let Draft {
        fields,
        before,
        after,
    } = draft;
    let fields = lists_of(alloc, fields)?;
    Ok(Group {
        fields,
        old: List::new(before),
        new: List::new(after),
    })
}

fn lists_of(alloc: Global, fields: Vec<Vec<Pattern>>) -> Result<List<List<Pattern>>, NoMemory>
    ensures { IfOk result (λ lists. lists ≡ map (λ f. f.items) fields.items) }
{
    let mut lists = Vec::with_capacity(alloc, fields.len())?;
    for patterns in fields {
        lists.push(List::new(patterns))?;
    }
    Ok(List::new(lists))
}
