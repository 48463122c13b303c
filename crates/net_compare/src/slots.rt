//! What is compared, as a type names it for workers.

ghost use Rattle.std.specs.Prelude.{◌≡◌, ◌<◌, ◌^◌, IfOk, length};
ghost use Rattle.cube_diagram.specs.Functions.{Keeps};
ghost use Rattle.pair_rows.specs.Functions.{IsFunctionOf};
ghost use Rattle.net_compare.specs.Walkable.{AreWalkable, gives_of};

use crate::compared::Compared;
use cube_diagram::Diagrams;
use net_types::NoMemory;
use pair_rows::{PairFunction, Pairing};
use std::alloc::Global;
use std::marker::{Model, PhantomData};
use table_twins::Base;

/// What is compared. Its sets are functions of the base, and what each slot is given is that of its ingress.
#[derive(Drop)]
pub(crate) struct Slots<'a, K: Pairing + Base> {
    compared: &'a Compared<'a>,
    pairing: PhantomData<K>,
}

impl<'a, K: Pairing + Base> Model for Slots<'a, K> {
    ghost use Rattle.std.specs.Prelude.{◌≡◌, List};
    ghost use Rattle.net_types.specs.declared.network.Place.{Place};
    ghost use Rattle.net_compare.specs.Walkable.{AreWalkable, gives_of};

    // Contracts see the ingresses.
    ghost Value = { List Place };

    ghost view = { λ s. s.compared.now.ingress.now };

    ghost invariant = { λ s. AreWalkable K.base s.compared.now × (K.gives ≡ gives_of s.compared.now) };
}

impl<'a, K: Pairing + Base> Slots<'a, K> {
    pub(crate) fn of(compared: &'a Compared<'a>) -> Slots<'a, K>
        requires nets { AreWalkable K.base compared.now }
        requires gives { K.gives ≡ gives_of compared.now }
        ensures { result ≡ compared.now.ingress.now }
    {
        Slots {
            compared,
            pairing: PhantomData,
        }
    }

    /// How many there are.
    pub(crate) fn count(&self) -> usize
        ensures count { result ≡ length self.now }
        ensures few { result < 2 ^ 32 }
    {
        self.compared.ingress.len()
    }

    /// The function of a slot. Walks add to the table, but none that was there is changed.
    pub(crate) fn function(
        &self,
        alloc: Global,
        table: &mut Diagrams,
        slot: u32,
    ) -> Result<PairFunction, NoMemory>
        requires { Keeps K.base table.old }
        ensures given { IfOk result (IsFunctionOf (K.gives slot)) }
        ensures kept { Keeps table.old table.new }
    {
        let given = self.compared.function(alloc, table, slot)?;
        Ok(given)
    }
}
