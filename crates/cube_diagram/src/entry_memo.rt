//! What is remembered of entries, so that the second version of a list makes those alone that the first one hasn't.

use hdr_bits::Cube;
use indexmap::IndexMap;
use std::alloc::Global;
use std::marker::Model;

/// So many cubes are kept at most.
const MOST_CUBES: usize = 1 << 20;

/// The number of the function that gives a value to the headers of some cubes.
#[derive(Clone, Copy)]
pub(crate) struct EntryNumber {
    pub(crate) value: u32,
    pub(crate) number: u32,
}

/// Entries by their cubes. Of two with the same cubes the later one drives out the other.
#[derive(Drop)]
pub(crate) struct EntryMemo {
    numbers: IndexMap<Vec<Cube>, EntryNumber>,
    /// How many cubes are kept.
    cubes: usize,
}

impl Model for EntryMemo {
    ghost use Rattle.std.specs.Prelude.{List, map};
    ghost use Rattle.hdr_bits.specs.declared.cube.Cube.{Cube};
    ghost use Rattle.cube_diagram.specs.declared.entry_memo.EntryNumber.{EntryNumber};

    ghost Value = { List (List Cube × EntryNumber) };

    ghost view = { λ m. map (λ e. (e.0.items, e.1)) m.numbers.entries };
}

impl EntryMemo {
    ghost use Rattle.std.specs.Prelude.{◌≡◌, ◌⊎◌, [], All, Contains, IfSome};

    /// Nothing is remembered.
    pub(crate) fn new(alloc: Global) -> EntryMemo
        ensures { result ≡ [] }
    {
        EntryMemo {
            numbers: IndexMap::new(alloc),
            cubes: 0,
        }
    }

    /// What is remembered of the value for the headers of these cubes.
    pub(crate) fn recall(&self, cubes: &[Cube], value: u32) -> Option<u32>
        ensures { IfSome result (λ r. Contains self.now (cubes.now, record { value = value; number = r })) }
    {
        let known = self.numbers.get(cubes)?;
        if known.value == value {
            Some(known.number)
        } else {
            None
        }
    }

    /// Remembers the entry, where there is memory and few enough are kept.
    pub(crate) fn remember(&mut self, alloc: Global, cubes: &[Cube], known: EntryNumber)
        ensures { All (λ e. (e ≡ (cubes.now, known)) ⊎ Contains self.old e) self.new }
    {
        let kept = self.cubes.saturating_add(cubes.len());
        if kept > MOST_CUBES {
            return;
        }
        let Ok(key) = cubes.to_vec(alloc) else {
            return;
        };
        if let Ok(_) = self.numbers.insert(key, known) {
            self.cubes = kept;
        }
    }
}
