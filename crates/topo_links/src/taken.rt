//! The ends that are taken, found by a hash of their two names.
ghost use Rattle.std.specs.Prelude.{◌≡◌, ◌++◌, ◌∷◌, [], not, true, IfOk};
ghost use Rattle.topo_links.specs.Ends.{is_taken};

use indexmap::IndexSet;
use net_types::{NoMemory, Text};
use std::alloc::Global;
use std::marker::Model;

/// Ends, each once.
#[derive(Drop)]
pub struct Taken {
    ends: IndexSet<(Vec<u8>, Vec<u8>)>,
}

impl Model for Taken {
    ghost use Rattle.std.specs.Prelude.{List, ℕ, map};
    ghost use Rattle.topo_links.specs.Ends.{End};

    ghost Value = { List End };

    ghost view = { λ t. map (λ e. (e.0.items, e.1.items)) t.ends.keys };
}

impl Taken {
    /// No end.
    pub fn new(alloc: Global) -> Taken
        ensures { result ≡ [] }
    {
        Taken {
            ends: IndexSet::new(alloc),
        }
    }

    /// Takes an end, and answers whether it was free.
    pub fn claim(
        &mut self,
        alloc: Global,
        device: &Text,
        interface: &Text,
    ) -> Result<bool, NoMemory>
        ensures free { IfOk result (λ free. free ≡ not (is_taken (device.now, interface.now) self.old)) }
        ensures taken { IfOk result (λ free. free ≡ true → self.new ≡ self.old ++ (device.now, interface.now) ∷ []) }
    {
        let device = device.as_bytes().to_vec(alloc)?;
        let interface = interface.as_bytes().to_vec(alloc)?;
        Ok(self.ends.insert((device, interface))?)
    }
}
