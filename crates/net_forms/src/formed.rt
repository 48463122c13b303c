//! One network that is compiled alone.

ghost use Rattle.std.specs.Prelude.{IfOk};
ghost use Rattle.net_view.specs.Borrowed.{world_of};
ghost use Rattle.net_forms.specs.Known.{AreKnownBefore};
ghost use Rattle.net_forms.specs.Networks.{IsFormedNetwork};

use crate::compile::compile_network;
use crate::forms::{Beforehand, NetworkForm, Tables};
use net_types::NoMemory;
use net_view::WorldRef;
use std::alloc::Global;

/// A network, compiled, with the tables that have its functions; others may be added to them.
#[derive(Drop)]
pub struct FormedNetwork<'a> {
    pub tables: Tables,
    pub form: NetworkForm<'a>,
}

impl<'a> FormedNetwork<'a> {
    /// Compiles a network in these tables, which may have some functions of its devices already.
    ///
    /// # Errors
    ///
    /// There was no memory.
    pub fn with_known(
        alloc: Global,
        mut tables: Tables,
        world: WorldRef<'a>,
        before: Beforehand,
    ) -> Result<FormedNetwork<'a>, NoMemory>
        requires { AreKnownBefore tables.diagrams tables.fates world.network.now.devices before }
        ensures { IfOk result (IsFormedNetwork (world_of world.entry)) }
    {
        let form = compile_network(alloc, &mut tables, world, None, before)?;
        Ok(FormedNetwork { tables, form })
    }
}
