//! The work of one call, which its board names by its type.
//!
//! A settle compares its meaning with the board's, under the lock that all workers share. To compare two networks there
//! would take long. So each call of the pool has a meaning of its own, a type without bytes, whose values are all equal:
//! that the board stands for this call's splitter and roots is known by its type, and nothing is compared.
ghost use Rattle.std.specs.Prelude.{◌≡◌, ℕ, List, Option, IfOk};
ghost use Rattle.cube_alg.specs.declared.Region.{Region};
ghost use Rattle.steal_pool.specs.Work.{IsWorkOf};

use crate::splitter::{Splitter, Worked};
use cube_alg::Region;
use no_memory::NoMemory;
use std::alloc::Global;
use std::marker::{Brand, Model, PhantomData};
use task_board::Meaning;

/// One call: the value that its splitter gives each header in each slot, and its roots.
pub trait Call<V> {
    ghost gives: { ℕ → ℕ → Option V };

    ghost roots: { List Region };
}

impl<V> Call<V> for Brand {
    ghost use Rattle.std.specs.Prelude.{[], None};

    ghost gives = { λ _ _. None };

    ghost roots = { [] };
}

/// The meaning of one call.
#[derive_where(Clone, Copy, PartialEq, Eq)]
pub struct CallMeaning<V, K> {
    value: PhantomData<V>,
    call: PhantomData<K>,
}

impl<V: Send + Drop, K: Call<V>> Meaning for CallMeaning<V, K> {
    type Value = V;

    ghost use Rattle.std.specs.Prelude.{refl};

    ghost gives = { λ _. K.gives };

    ghost same = { λ a b e slot h. refl };
}

impl<V, K> CallMeaning<V, K> {
    pub fn new() -> CallMeaning<V, K> {
        CallMeaning {
            value: PhantomData,
            call: PhantomData,
        }
    }
}

/// The splitter of a call.
#[derive(Drop)]
pub struct Plan<S: Splitter, K: Call<S::Value>> {
    splitter: S,
    call: PhantomData<K>,
}

impl<S: Splitter, K: Call<S::Value>> Model for Plan<S, K> {
    ghost use Rattle.std.specs.Prelude.{◌≡◌};

    ghost Value = { S };

    ghost view = { λ p. p.splitter };

    // The splitter is that of the call.
    ghost invariant = { λ p. K.gives ≡ S.gives p.splitter };
}

impl<S: Splitter, K: Call<S::Value>> Plan<S, K> {
    pub fn of(splitter: S) -> Plan<S, K>
        requires { K.gives ≡ S.gives splitter }
    {
        Plan {
            splitter,
            call: PhantomData,
        }
    }

    /// What the splitter finds, as the call's meaning says it.
    pub fn work(&self, alloc: Global, region: &Region) -> Result<Worked<S::Value>, NoMemory>
        ensures { IfOk result (IsWorkOf K.gives region.now) }
    {
        self.splitter.work(alloc, region)
    }
}
