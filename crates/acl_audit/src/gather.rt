//! Lists that are gathered.

ghost use Rattle.std.specs.Prelude.{◌≡◌, OnOk};
ghost use Rattle.acl_audit.specs.Findings.{with_last};

use no_memory::NoMemory;

/// Adds the item at the end, if there is one.
pub(crate) fn push_if<T: Drop>(items: &mut Vec<T>, item: Option<T>) -> Result<(), NoMemory>
    ensures { OnOk result (items.new.items ≡ with_last items.old.items item) }
{
    if let Some(item) = item {
        items.push(item)?;
    }
    Ok(())
}
