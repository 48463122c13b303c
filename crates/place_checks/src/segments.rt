//! The segment of each end, found by a hash of its two names.
ghost use Rattle.std.specs.Prelude.{◌≡◌, ◌++◌, ◌∷◌, [], ℕ, List, IfOk, OnOk, map};
ghost use Rattle.place_checks.specs.Homes.{is_one};

use crate::place::{PlaceRef, place_at};
use indexmap::IndexMap;
use net_types::{NoMemory, Text};
use std::alloc::Global;
use topo_links::{LinkKind, LinkLine};

/// The line of the segment that an end is on, by the names of its device and its interface.
pub struct Segments<'a> {
    pub table: &'a [LinkLine],
    pub lines: IndexMap<(Vec<u8>, Vec<u8>), u32>,
}

impl<'a> Drop for Segments<'a> {
    fn drop(self) {
        let Segments { table: _, lines: _ } = self;
    }
}

/// A copy of the names of a place, as a key.
fn key_of(alloc: Global, place: PlaceRef) -> Result<(Vec<u8>, Vec<u8>), NoMemory>
    ensures device { IfOk result (λ key. key.0.items ≡ place.entry.device.now) }
    ensures interface { IfOk result (λ key. key.1.items ≡ place.entry.interface.now) }
{
    let device = place.device.as_bytes().to_vec(alloc)?;
    let interface = place.interface.as_bytes().to_vec(alloc)?;
    Ok((device, interface))
}

impl<'a> Segments<'a> {
    ghost use Rattle.topo_links.specs.Ends.{End};
    ghost use Rattle.place_checks.specs.Homes.{numbered, line_ends, joins};
    ghost use Rattle.place_checks.specs.Index.{AreEnds, AreSegments, kept_line, place_in};

    /// The segments of the lines of a table.
    pub fn of(alloc: Global, table: &'a [LinkLine]) -> Result<Segments<'a>, NoMemory>
        ensures table { IfOk result (λ segments. segments.table.now ≡ table.now) }
        ensures segments { IfOk result AreSegments }
    {
        let mut segments = Segments {
            table,
            lines: IndexMap::new(alloc),
        };
        for line in table {
            segments.add_line(alloc, line)?;
        }
        Ok(segments)
    }

    fn add_line(&mut self, alloc: Global, line: &LinkLine) -> Result<(), NoMemory>
        ensures table { self.new.table ≡ self.old.table }
        ensures ends { OnOk result ((ps : List (End × ℕ)) → AreEnds self.old ps → AreEnds self.new (ps ++ line_ends line.now)) }
    {
        match line.kind {
            LinkKind::P2p => self.add_ends(alloc, line.line, line.ends.as_slice()),
            LinkKind::Lan => self.add_ends(alloc, line.line, line.ends.as_slice()),
            LinkKind::Ingress => Ok(()),
        }
    }

    fn add_ends(&mut self, alloc: Global, line: u32, ends: &[(Text, Text)]) -> Result<(), NoMemory>
        ensures table { self.new.table ≡ self.old.table }
        ensures ends { OnOk result ((ps : List (End × ℕ)) → AreEnds self.old ps → AreEnds self.new (ps ++ map (numbered line) ends.now)) }
    {
        for end in ends {
            self.add(alloc, line, place_at(end))?;
        }
        Ok(())
    }

    /// Adds an end, where it is on no segment yet.
    fn add(&mut self, alloc: Global, line: u32, end: PlaceRef) -> Result<(), NoMemory>
        ensures table { self.new.table ≡ self.old.table }
        ensures ends { OnOk result ((ps : List (End × ℕ)) → AreEnds self.old ps → AreEnds self.new (ps ++ (place_in end.entry, line) ∷ [])) }
    {
        let key = key_of(alloc, end)?;
        if self.lines.contains_key(&key) {
            return Ok(());
        }
        self.lines.insert(key, line)?;
        Ok(())
    }

    /// The line of the segment of a place.
    fn line_of(&self, alloc: Global, place: PlaceRef) -> Result<Option<u32>, NoMemory>
        ensures { IfOk result (λ line. line ≡ kept_line self.now (place_in place.entry)) }
    {
        let key = key_of(alloc, place)?;
        Ok(self.lines.get(&key).copied())
    }

    /// Whether one segment has both places.
    pub fn joins(&self, alloc: Global, place: PlaceRef, other: PlaceRef) -> Result<bool, NoMemory>
        requires { AreSegments self.now }
        ensures { IfOk result (λ joined. joined ≡ joins self.now.table.now (place_in place.entry) (place_in other.entry)) }
    {
        let line = self.line_of(alloc, place)?;
        let other = self.line_of(alloc, other)?;
        Ok(is_one(line, other))
    }
}

/// Whether both are there and one.
fn is_one(line: Option<u32>, other: Option<u32>) -> bool
    ensures { result ≡ is_one line other }
{
    let Some(line) = line else {
        return false;
    };
    match other {
        None => false,
        Some(other) => line == other,
    }
}
