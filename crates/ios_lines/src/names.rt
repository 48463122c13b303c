//! Names in the order in which they were first written.
ghost use Rattle.std.specs.Prelude.{◌≡◌, IfOk, IfSome, ◌<◌, length, []};
ghost use Rattle.ios_lines.specs.Lists.{place_of, add_name};

use indexmap::IndexSet;
use net_types::{NoMemory, Text};
use std::alloc::Global;
use std::marker::Model;

/// Names, each once, which are found by their bytes.
#[derive(Drop)]
pub struct NameList {
    names: IndexSet<Vec<u8>>,
}

impl Model for NameList {
    ghost use Rattle.std.specs.Prelude.{List, ℕ, map};

    ghost Value = { List (List ℕ) };

    ghost view = { λ n. map (λ v. v.items) n.names.keys };
}

impl NameList {
    /// No name.
    pub fn new(alloc: Global) -> NameList
        ensures { result ≡ [] }
    {
        NameList {
            names: IndexSet::new(alloc),
        }
    }

    /// Where the name stands.
    pub fn find(&self, name: &Text) -> Option<usize>
        ensures value { result ≡ place_of name.now self.now }
        ensures bound { IfSome result (λ i. i < length self.now) }
    {
        self.names.get_index_of(name.as_bytes())
    }

    /// Adds a name at the end, unless it is there.
    pub fn add(&mut self, alloc: Global, name: &Text) -> Result<(), NoMemory>
        ensures { IfOk result (λ _. self.new ≡ add_name self.old name.now) }
    {
        let bytes = name.as_bytes().to_vec(alloc)?;
        self.names.insert(bytes)?;
        Ok(())
    }
}
