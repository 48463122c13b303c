//! The entries of an access list while it is read.
ghost use Rattle.std.specs.Prelude.{◌≡◌, [], ◌++◌, IfOk, map};
ghost use Rattle.ios_lines.specs.Books.{put_entry, greatest, next_sequence, has_sequence};

use net_types::{Entry, List, NoMemory};
use std::alloc::Global;
use std::collections::BTreeMap;
use std::marker::Model;

// The greatest sequence number that an entry may have.
const LAST_SEQUENCE: u32 = 2_147_483_647;

/// Entries with their sequence numbers, rising.
#[derive(Drop)]
pub struct EntryBook {
    entries: BTreeMap<u32, Entry>,
}

impl Model for EntryBook {
    ghost use Rattle.std.specs.Prelude.{List, ℕ};
    ghost use Rattle.net_types.specs.declared.config.Entry.{Entry};

    ghost Value = { List (ℕ × Entry) };

    ghost view = { λ b. b.entries.entries };
}

impl EntryBook {
    /// No entry.
    pub fn new(alloc: Global) -> EntryBook
        ensures { result ≡ [] }
    {
        EntryBook {
            entries: BTreeMap::new(alloc),
        }
    }

    /// Puts an entry in its place.
    pub fn put(&mut self, entry: Entry) -> Result<(), NoMemory>
        ensures { IfOk result (λ _. self.new ≡ put_entry self.old entry) }
    {
        let sequence = entry.sequence;
        self.entries.insert(sequence, entry)?;
        Ok(())
    }

    /// Whether an entry has this sequence number.
    pub fn has(&self, sequence: u32) -> bool
        ensures { result ≡ has_sequence sequence self.now }
    {
        self.entries.contains_key(&sequence)
    }

    /// The greatest sequence number.
    fn greatest(&self) -> Option<u32>
        ensures { result ≡ greatest self.now }
    {
        let Some((sequence, _)) = self.entries.last_key_value() else {
            return None;
        };
        Some(*sequence)
    }

    /// The sequence number of an entry that is written without one.
    pub fn next(&self) -> Option<u32>
        ensures { result ≡ next_sequence self.now }
    {
        let Some(greatest) = self.greatest() else {
            return Some(10);
        };
        if greatest > LAST_SEQUENCE - 10 {
            return None;
        }
        Some(greatest + 10)
    }

    /// The entries, by rising sequence number.
    pub fn into_entries(self, alloc: Global) -> Result<List<Entry>, NoMemory>
        ensures { IfOk result (λ es. es ≡ map (λ e. e.1) self) }
    {
        let EntryBook { mut entries } = self;
        let mut found = Vec::new(alloc);
        while let Some((_, entry)) = entries.pop_first() {
            found.push(entry)?;
        }
        Ok(List::new(found))
    }
}
