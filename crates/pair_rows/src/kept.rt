//! The functions of slots, as workers share them.

ghost use Rattle.std.specs.Prelude.{IfSome};
ghost use Rattle.pair_rows.specs.Functions.{IsFunctionOf};

use crate::function::PairFunction;
use std::marker::{Brand, Model, PhantomData};

/// Which pair of labels, if any, each header has in each slot.
///
/// What is in a shared cell is known by its type alone. So the pairs are named by a type, which has no values.
pub trait Pairing {
    ghost use Rattle.std.specs.Prelude.{ℕ, Option, List};
    ghost use Rattle.net_types.specs.declared.label.Outcome.{Outcome};

    ghost gives: { ℕ → ℕ → Option (List Outcome × List Outcome) };
}

impl Pairing for Brand {
    ghost use Rattle.std.specs.Prelude.{None};

    ghost gives = { λ _ _. None };
}

/// The function of a slot.
#[derive(Drop)]
pub(crate) struct SlotFunction<K: Pairing> {
    slot: u32,
    given: PairFunction,
    pairing: PhantomData<K>,
}

impl<K: Pairing> Model for SlotFunction<K> {
    ghost use Rattle.std.specs.Prelude.{ℕ};
    ghost use Rattle.pair_rows.specs.declared.function.PairFunction.{PairFunction};
    ghost use Rattle.pair_rows.specs.Functions.{IsFunctionOf};

    ghost Value = { ℕ × PairFunction };

    ghost view = { λ s. (s.slot, s.given) };

    // It gives what the slot is given.
    ghost invariant = { λ s. IsFunctionOf (K.gives s.slot) s.given };
}

impl<K: Pairing> SlotFunction<K> {
    pub(crate) fn of(slot: u32, given: PairFunction) -> SlotFunction<K>
        requires { IsFunctionOf (K.gives slot) given }
    {
        SlotFunction {
            slot,
            given,
            pairing: PhantomData,
        }
    }

    /// The function, if it is that of this slot.
    pub(crate) fn of_slot(&self, slot: u32) -> Option<&PairFunction>
        ensures { IfSome result (λ f. IsFunctionOf (K.gives slot) f.now) }
    {
        if self.slot == slot {
            Some(&self.given)
        } else {
            None
        }
    }
}
