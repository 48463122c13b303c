//! The lists of a folder, each with the findings that an audit says of it.
ghost use Rattle.std.specs.Prelude.{◌≡◌, IfOk, reverse};
ghost use Rattle.audit_view.specs.Audited.{with_findings};

use crate::findings::Finding;
use crate::lists::FolderList;
use net_types::{List, NoMemory};
use std::alloc::Global;

/// A list with its findings.
pub struct AuditedList {
    pub list: FolderList,
    pub findings: List<Finding>,
}

impl Drop for AuditedList {
    fn drop(self) {
        let AuditedList {
            list: _,
            findings: _,
        } = self;
    }
}

/// Each list with the findings at its position; `said` has those of the last list first. A list past their end has none.
pub(crate) fn with_findings(
    alloc: Global,
    mut lists: Vec<FolderList>,
    mut said: Vec<List<Finding>>,
) -> Result<Vec<AuditedList>, NoMemory>
    ensures { IfOk result (λ audited. audited.items ≡ with_findings lists.items (reverse said.items)) }
{
    lists.reverse();
    let mut audited = Vec::new(alloc);
    while let Some(list) = lists.pop() {
        let findings = match said.pop() {
            Some(findings) => findings,
            None => List::empty(alloc),
        };
        audited.push(AuditedList { list, findings })?;
    }
    Ok(audited)
}
