//! Names, found by their hash.
ghost use Rattle.std.specs.Prelude.{◌≡◌, ◌<◌, ◌==◌, [], IfOk, IfSome, OnOk, OnErr, length, map, position};
ghost use Rattle.std.specs.Str.{bytes_eq};
ghost use Rattle.std.specs.List.{list_any};
ghost use Rattle.topo_links.specs.Names.{add_name, sorted_names};

use indexmap::IndexSet;
use net_types::{List, NoMemory, Text};
use std::alloc::Global;
use std::marker::Model;

/// Names, each once, in the order in which they were added. A name's place is found in constant time.
pub struct NameIndex {
    names: IndexSet<Vec<u8>>,
}

impl Drop for NameIndex {
    fn drop(self) {
        let NameIndex { names: _ } = self;
    }
}

impl Model for NameIndex {
    ghost use Rattle.std.specs.Prelude.{List, ℕ, map};

    ghost Value = { List (List ℕ) };

    ghost view = { λ n. map (λ v. v.items) n.names.keys };
}

impl NameIndex {
    /// No names.
    pub fn new(alloc: Global) -> NameIndex
        ensures { result ≡ [] }
    {
        NameIndex {
            names: IndexSet::new(alloc),
        }
    }

    /// How many names there are.
    pub fn len(&self) -> usize
        ensures { result ≡ length self.now }
    {
        self.names.len()
    }

    /// Whether there is no name.
    pub fn is_empty(&self) -> bool
        ensures { result ≡ (length self.now == 0) }
    {
        self.names.is_empty()
    }

    /// The place of a name, from 0.
    pub fn place(&self, name: &Text) -> Option<usize>
        ensures value { result ≡ position (bytes_eq name.now) self.now }
        ensures bound { IfSome result (λ i. i < length self.now) }
    {
        self.names.get_index_of(name.as_bytes())
    }

    /// Whether the name is there.
    pub fn has(&self, name: &Text) -> bool
        ensures { result ≡ list_any (bytes_eq name.now) self.now }
    {
        self.names.contains(name.as_bytes())
    }

    /// Adds a name that isn't there yet at the end.
    pub fn add(&mut self, alloc: Global, name: &Text) -> Result<(), NoMemory>
        ensures ok { OnOk result (self.new ≡ add_name self.old name.now) }
        ensures err { OnErr result (self.new ≡ self.old) }
    {
        if self.has(name) {
            return Ok(());
        }
        let bytes = name.as_bytes().to_vec(alloc)?;
        self.names.insert(bytes)?;
        Ok(())
    }

    /// Puts the names in the order of their bytes.
    pub fn sort(&mut self) -> Result<(), NoMemory>
        ensures ok { OnOk result (self.new ≡ sorted_names self.old) }
        ensures err { OnErr result (self.new ≡ self.old) }
    {
        self.names.sort()?;
        Ok(())
    }

    /// Copies of the names, in their order.
    pub fn copies(&self, alloc: Global) -> Result<List<Text>, NoMemory>
        ensures { IfOk result (λ names. names ≡ self.now) }
    {
        let mut names = Vec::with_capacity(alloc, self.names.len())?;
        for name in self.names.as_slice() {
            names.push(Text::copy_of(alloc, name.as_slice())?)?;
        }
        Ok(List::new(names))
    }
}
