//! How walks of packets end: an outcome, and the label of a header, which is all of its outcomes in order.

ghost use Rattle.std.specs.Prelude.{◌≡◌, ◌≢◌, ◌↔◌, [], IfOk, IsTrue};
ghost use Rattle.net_types.specs.Order.{in_order, outcome_cmp, IsLabel};

use crate::{Duplicate, NoMemory, Place};
use std::alloc::Global;
use std::marker::Model;

/// How a walk of a packet ends.
///
/// Outcomes are ordered as they stand here, those of one kind by place and then by the changed fields in turn,
/// where an unchanged field comes before every value.
#[derive(Clone, Copy, Debug, PartialEq, Eq, PartialOrd, Ord, Hash)]
pub enum Outcome {
    Dropped,
    /// Its TTL ran out.
    Expired,
    /// It reached the interface of a device that has its destination address.
    Local {
        place: Place,
    },
    /// It left the network at a place. Each field of the final header is there only where it differs from the
    /// header that entered.
    Exit {
        place: Place,
        src: Option<u32>,
        dst: Option<u32>,
        sport: Option<u16>,
        dport: Option<u16>,
    },
}

/// All outcomes of a header: in order, each once, at least one.
#[derive(Drop)]
pub struct Label {
    outcomes: Vec<Outcome>,
}

impl Model for Label {
    ghost use Rattle.std.specs.Prelude.{List};
    ghost use Rattle.net_types.specs.declared.label.Outcome.{Outcome};

    ghost Value = { List Outcome };

    ghost use Rattle.net_types.specs.Order.{IsLabel};

    ghost view = { λ l. l.outcomes.items };

    ghost invariant = { λ l. IsLabel l.outcomes.items };
}

impl Label {
    /// The label of these outcomes, given in any order and any number of times.
    pub fn of(outcomes: Vec<Outcome>) -> Result<Label, NoMemory>
        requires { outcomes.items ≢ [] }
        ensures { IfOk result (λ label. label ≡ in_order outcome_cmp outcomes.items) }
    {
        let mut outcomes = outcomes;
        outcomes.sort()?;
        outcomes.dedup();
        Ok(Label { outcomes })
    }

    /// Whether the two have the same outcomes.
    pub fn same(&self, other: &Label) -> bool
        ensures { IsTrue result ↔ (self.now ≡ other.now) }
    {
        self.outcomes.as_slice() == other.outcomes.as_slice()
    }

    /// The outcomes, in order.
    pub fn as_slice(&self) -> &[Outcome]
        ensures same { result.now ≡ self.now }
        ensures label { IsLabel self.now }
    {
        self.outcomes.as_slice()
    }
}

impl Duplicate for Label {
    fn copy(&self, alloc: Global) -> Result<Label, NoMemory> {
        Ok(Label {
            outcomes: self.outcomes.as_slice().to_vec(alloc)?,
        })
    }
}
