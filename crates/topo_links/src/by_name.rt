//! The first of several things that has a name, found by a hash of the name.
ghost use Rattle.std.specs.Prelude.{◌≡◌, ℕ, List, IfOk, IfSome, find, position, slice_get};
ghost use Rattle.std.specs.Option.{option_copied};
ghost use Rattle.topo_links.specs.ByName.{is_named, firsts_of, IsByName};

use crate::NameIndex;
use net_types::{Interface, Loaded, NoMemory, Text};
use std::alloc::Global;

/// A thing that has a name.
pub trait Named {
    /// The bytes of its name.
    ghost name_of: { Self → List ℕ };

    /// Its name.
    fn name(&self) -> &Text
        ensures { result.now ≡ name_of self.now };
}

/// A device is named by its hostname.
impl Named for Loaded {
    ghost name_of = { λ l. l.config.hostname };

    fn name(&self) -> &Text {
        &self.config.hostname
    }
}

impl Named for Interface {
    ghost name_of = { λ i. i.name };

    fn name(&self) -> &Text {
        &self.name
    }
}

/// Things by their names. Of several with one name the first counts.
#[derive(Drop)]
pub struct ByName<'a, T> {
    pub items: &'a [T],
    pub names: NameIndex,
    pub firsts: Vec<&'a T>,
}

impl<'a, T: Named> ByName<'a, T> {
    /// These things by their names.
    pub fn of(alloc: Global, items: &'a [T]) -> Result<ByName<'a, T>, NoMemory>
        ensures items { IfOk result (λ found. found.items.now ≡ items.now) }
        ensures by_name { IfOk result (IsByName T.name_of) }
    {
        let mut names = NameIndex::new(alloc);
        let mut firsts = Vec::new(alloc);
        for item in items {
            let name = item.name();
            if names.has(name) {
                continue;
            }
            names.add(alloc, name)?;
            firsts.push(item)?;
        }
        Ok(ByName {
            items,
            names,
            firsts,
        })
    }

    /// The place of a name among those of the firsts.
    pub fn place(&self, name: &Text) -> Option<usize>
        requires { IsByName T.name_of self.now }
        ensures { result ≡ position (is_named T.name_of name.now) (firsts_of self.now) }
    {
        self.names.place(name)
    }

    /// The first at a place.
    fn first(&self, place: usize) -> Option<&'a T>
        ensures { option_copied result ≡ slice_get (firsts_of self.now) place }
    {
        let Some(first) = self.firsts.get(place) else {
            return None;
        };
        Some(*first)
    }

    /// The first of them that has this name.
    pub fn get(&self, name: &Text) -> Option<&'a T>
        requires { IsByName T.name_of self.now }
        ensures { option_copied result ≡ find (is_named T.name_of name.now) self.now.items.now }
    {
        let Some(place) = self.place(name) else {
            return None;
        };
        self.first(place)
    }
}
