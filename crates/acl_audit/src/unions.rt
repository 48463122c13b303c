//! What blocks of entries decide.

ghost use Rattle.std.specs.Prelude.{◌≡◌, ◌<◌, ◌+◌, ◌*◌, ◌/◌, ℕ, List, [], nat_eq, length, get_or, IfOk};
ghost use Rattle.indexmap.specs.IndexMap.{get};
ghost use Rattle.net_types.specs.declared.config.Entry.{Entry};
ghost use Rattle.cube_diagram.specs.Functions.{Keeps, count_of};
ghost use Rattle.acl_audit.specs.Sets.{AreDecided, AreLevel, AreMatched, AreUnions};

use crate::decided::{decided_by, decided_sets};
use crate::sets::add_set;
use cube_diagram::Diagrams;
use indexmap::IndexMap;
use net_types::Entry;
use no_memory::NoMemory;
use std::alloc::Global;
use std::marker::Model;

/// The sets of headers that the entries decide, and above them level by level the unions of two neighbours: on level
/// `n` a set is that of a block of 2 ^ n entries. What is left over at the end of a level is in no block of the next.
#[derive(Drop)]
pub(crate) struct Unions {
    levels: Vec<Vec<u32>>,
}

/// A block of a level, the first being number 0.
#[derive(Clone, Copy)]
pub(crate) struct Block {
    pub(crate) level: usize,
    pub(crate) number: usize,
}

impl Model for Unions {
    ghost use Rattle.std.specs.Prelude.{ℕ, List, map};

    ghost Value = { List (List ℕ) };

    ghost view = { λ u. map (λ level. level.items) u.levels.items };
}

impl Unions {
    /// The unions over all entries. `matched` has the sets of the headers that they match.
    pub(crate) fn over(
        alloc: Global,
        diagrams: &mut Diagrams,
        entries: &[Entry],
        matched: &[u32],
    ) -> Result<Unions, NoMemory>
        requires { AreMatched diagrams.old entries.now matched.now }
        ensures unions { IfOk result (λ unions. AreUnions diagrams.new entries.now unions) }
        ensures kept { Keeps diagrams.old diagrams.new }
    {
        let decided = decided_sets(alloc, diagrams, entries, matched)?;
        let mut level = single_sets(alloc, diagrams, entries, &decided)?;
        let mut levels = Vec::new(alloc);
        'levels: while !level.is_empty() {
            let above = pair_sets(alloc, diagrams, &level)?;
            levels.push(level)?;
            level = above;
        }
        Ok(Unions { levels })
    }

    /// The set of a block of a level.
    pub(crate) fn set(&self, level: usize, block: usize) -> u32
        requires { block < length (get_or self.now level []) }
        ensures { result ≡ get_or (get_or self.now level []) block 0 }
    {
        self.levels[level][block]
    }
}

// The sets of single entries.
fn single_sets(
    alloc: Global,
    diagrams: &Diagrams,
    entries: &[Entry],
    decided: &IndexMap<u32, u32>,
) -> Result<Vec<u32>, NoMemory>
    requires { AreDecided diagrams.now entries.now (get nat_eq decided.now) }
    ensures sets { IfOk result (λ sets. AreLevel diagrams.now entries.now 0 sets.items) }
    ensures all { IfOk result (λ sets. length sets.items ≡ length entries.now) }
{
    let mut sets = Vec::with_capacity(alloc, entries.len())?;
    for e in entries {
        sets.push(decided_by(diagrams, decided, e.sequence))?;
    }
    Ok(sets)
}

// The unions of two neighbours each.
fn pair_sets(alloc: Global, diagrams: &mut Diagrams, sets: &[u32]) -> Result<Vec<u32>, NoMemory>
    requires { (k : ℕ) → k < length sets.now → get_or sets.now k 0 < count_of diagrams.old }
    ensures unions { IfOk result (λ unions. (entries : List Entry) (level : ℕ)
        → AreLevel diagrams.old entries level sets.now → AreLevel diagrams.new entries (level + 1) unions.items) }
    ensures all { IfOk result (λ unions. length unions.items ≡ length sets.now / 2) }
    ensures kept { Keeps diagrams.old diagrams.new }
{
    let mut unions = Vec::with_capacity(alloc, sets.len() / 2)?;
    for k in 0..sets.len() / 2 {
        let union = add_set(diagrams, sets[2 * k], sets[2 * k + 1])?;
        unions.push(union)?;
    }
    Ok(unions)
}
