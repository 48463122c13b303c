//! The ingresses as slots, as workers share them.

ghost use Rattle.std.specs.Prelude.{◌≡◌, IfSome};

use crate::slots::Slots;
use cube_diagram::Diagrams;
use net_types::NoMemory;
use pair_rows::{PairFunction, PairSource, Pairing};
use std::alloc::Global;
use std::marker::Model;
use std::sync::Wait;
use table_twins::{Base, Twins};

/// What makes the function of an ingress's pairs: what is compared, and the tables in which workers walk.
#[derive(Drop)]
pub(crate) struct Ingresses<'a, R, K: Pairing + Base> {
    rt: &'a R,
    base: Option<&'a Diagrams>,
    twins: &'a Twins<K>,
    slots: &'a Slots<'a, K>,
}

impl<'a, R, K: Pairing + Base> Model for Ingresses<'a, R, K> {
    ghost use Rattle.std.specs.Prelude.{◌≡◌, IfSome, List};
    ghost use Rattle.net_types.specs.declared.network.Place.{Place};

    // Contracts see the ingresses.
    ghost Value = { List Place };

    ghost view = { λ s. s.slots.now };

    ghost invariant = { λ s. IfSome s.base (λ b. K.base ≡ b.now) };
}

impl<'a, R, K: Pairing + Base> Ingresses<'a, R, K> {
    pub(crate) fn of(
        rt: &'a R,
        base: Option<&'a Diagrams>,
        twins: &'a Twins<K>,
        slots: &'a Slots<'a, K>,
    ) -> Ingresses<'a, R, K>
        requires { IfSome base (λ b. K.base ≡ b.now) }
    {
        Ingresses {
            rt,
            base,
            twins,
            slots,
        }
    }
}

impl<'a, R: Wait, K: Pairing + Base> PairSource<K> for Ingresses<'a, R, K> {
    // The table goes back also where there was no memory for the function, so that another worker finds it.
    fn function(&self, alloc: Global, slot: u32) -> Result<PairFunction, NoMemory> {
        let mut table = self.twins.take(self.rt, self.base)?;
        let given = self.slots.function(alloc, &mut table, slot);
        self.twins.give_back(self.rt, table);
        given
    }
}
