//! What walks tell of headers, and sets of headers of which the same is told.

ghost use Rattle.std.specs.Prelude.{◌≡◌, ◌<◌, [], ◌∷◌, ◌++◌, IfOk, OnOk};
ghost use Rattle.incr_review.specs.Facts.{facts_of};

use net_types::{NoMemory, Outcome};
use set_walk::WalkedSets;
use std::alloc::Global;

/// What walks tell of a header.
#[derive(Clone, Copy, Debug, PartialEq, Eq)]
pub enum WalkFact {
    /// One of its walks ends so.
    Ends { outcome: Outcome },
    /// One of its walks comes to the device.
    Visits { device: u32 },
}

/// A fact with the set of the headers of which it holds.
#[derive(Clone, Copy, Debug, PartialEq, Eq)]
pub struct FactSet {
    pub fact: WalkFact,
    pub headers: u32,
}

/// What a walk tells, as facts.
pub(crate) fn facts_of(alloc: Global, walked: &WalkedSets) -> Result<Vec<FactSet>, NoMemory>
    ensures { IfOk result (λ r. r.items ≡ facts_of walked.now.ends.items walked.now.visitors.items) }
{
    let mut facts = Vec::new(alloc);
    for end in &walked.ends {
        facts.push(FactSet {
            fact: WalkFact::Ends {
                outcome: end.outcome,
            },
            headers: end.headers,
        })?;
    }
    for visitor in &walked.visitors {
        facts.push(FactSet {
            fact: WalkFact::Visits {
                device: visitor.device,
            },
            headers: visitor.headers,
        })?;
    }
    Ok(facts)
}
