//! Texts, counted as they come.
ghost use Rattle.std.specs.Prelude.{◌≡◌, ◌++◌, [], IfOk, OnOk, option_map, option_to_list, slice_get};
ghost use Rattle.text_tallies.specs.Tallies.{raised, row, rows};

use indexmap::IndexMap;
use net_types::{NoMemory, Text};
use std::alloc::Global;

/// How often a text stands in a list, and where first.
#[derive(Clone, Copy, Debug, PartialEq, Eq)]
pub struct Seen {
    pub count: u64,
    /// From 0.
    pub first: usize,
}

/// A text of a list: how often it stands there, and where first.
#[derive(Drop)]
pub struct Tally {
    pub text: Text,
    pub count: u64,
    /// From 0.
    pub first: usize,
}

/// The texts of a list, each once.
#[derive(Drop)]
pub struct Tallies {
    pub seen: IndexMap<Vec<u8>, Seen>,
    /// How long the list is.
    pub length: usize,
}

impl Tallies {
    ghost use Rattle.std.specs.Prelude.{ℕ, List, ◌∷◌, ◌++◌, ◌<◌, ◌^◌, OnOk, count_by, length};
    ghost use Rattle.std.specs.List.Sorted.{IsSortedByKey};
    ghost use Rattle.std.specs.Str.{bytes_eq};
    ghost use Rattle.indexmap.specs.IndexMap.{IsUnique};
    ghost use Rattle.text_tallies.specs.Tallies.{AreSeen, AreTallies, counted, kept, rank, rank_cmp, row, rows};

    /// The texts of an empty list.
    pub fn new(alloc: Global) -> Tallies
        ensures { AreSeen [] result }
    {
        Tallies {
            seen: IndexMap::new(alloc),
            length: 0,
        }
    }

    /// Adds a text at the end of the list.
    pub fn add(&mut self, alloc: Global, text: &[u8]) -> Result<(), NoMemory>
        ensures { OnOk result ((ts : List (List ℕ)) → length ts < 2 ^ 63 → AreSeen ts self.old → AreSeen (ts ++ text.now ∷ []) self.new) }
    {
        let seen = raised(self.get(text), self.length);
        self.seen.insert(text.to_vec(alloc)?, seen)?;
        self.length = self.length.saturating_add(1);
        Ok(())
    }

    /// What is seen of a text; nothing where it isn't there.
    fn get(&self, text: &[u8]) -> Option<Seen>
        ensures { result ≡ kept self.now text.now }
    {
        self.seen.get(text).copied()
    }

    /// How often a text stands in the list.
    pub fn count(&self, text: &[u8]) -> u64
        ensures { (ts : List (List ℕ)) → AreSeen ts self.now → result ≡ count_by (bytes_eq text.now) ts }
    {
        match self.get(text) {
            None => 0,
            Some(seen) => seen.count,
        }
    }

    /// Puts the most frequent texts first, and of equally frequent ones those that stand first in the list.
    fn sort(&mut self) -> Result<(), NoMemory>
        ensures once { OnOk result (IsUnique (λ a b. bytes_eq a.items b.items) self.new.seen) }
        ensures same { OnOk result ((ts : List (List ℕ)) → AreSeen ts self.old → AreSeen ts self.new) }
        ensures order { OnOk result (IsSortedByKey (λ e. rank (row (e.0.items, e.1))) rank_cmp self.new.seen.entries) }
    {
        self.seen
            .sort_by_key(|_, seen| (u64::MAX - seen.count, seen.first))?;
        Ok(())
    }

    /// The texts, the most frequent ones first, and of equally frequent ones those that stand first in the list.
    pub fn into_rows(self, alloc: Global) -> Result<Vec<Tally>, NoMemory>
        ensures { IfOk result (λ tallies. (ts : List (List ℕ)) → AreSeen ts self → AreTallies ts tallies.items) }
    {
        let mut tallies = self;
        tallies.sort()?;
        rows_of(alloc, &tallies)
    }
}

/// What is seen of a text that is added at this place of the list.
fn raised(seen: Option<Seen>, place: usize) -> Seen
    ensures { result ≡ raised seen place }
{
    match seen {
        None => Seen {
            count: 1,
            first: place,
        },
        Some(seen) => Seen {
            count: seen.count.saturating_add(1),
            first: seen.first,
        },
    }
}

/// The rows of a table as they stand.
fn rows_of(alloc: Global, tallies: &Tallies) -> Result<Vec<Tally>, NoMemory>
    ensures { IfOk result (λ found. found.items ≡ rows tallies.now) }
{
    let mut found = Vec::with_capacity(alloc, tallies.seen.len())?;
    for place in 0..tallies.seen.len() {
        push_row(alloc, tallies, place, &mut found)?;
    }
    Ok(found)
}

/// Adds the row at a place.
fn push_row(
    alloc: Global,
    tallies: &Tallies,
    place: usize,
    found: &mut Vec<Tally>,
) -> Result<(), NoMemory>
    ensures { OnOk result (found.new.items ≡ found.old.items ++ option_to_list (option_map (λ e. row (e.0.items, e.1)) (slice_get tallies.now.seen.entries place))) }
{
    let Some((text, seen)) = tallies.seen.get_index(place) else {
        return Ok(());
    };
    found.push(Tally {
        text: Text::copy_of(alloc, text.as_slice())?,
        count: seen.count,
        first: seen.first,
    })?;
    Ok(())
}
