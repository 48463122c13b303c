//! The moves of a network's states, each kept once they were found.

ghost use Rattle.std.specs.Prelude.{◌≡◌, IfSome};
ghost use Rattle.walk_trace.specs.Numbered.{ordered_moves};

use crate::states::{StateKey, key_of};
use indexmap::IndexMap;
use net_types::{List, Move, NoMemory, State};
use net_view::WorldRef;
use std::alloc::Global;
use std::marker::Model;

/// The moves of states, in order.
pub(crate) struct Moves<'a> {
    world: WorldRef<'a>,
    moves: IndexMap<StateKey, List<Move>>,
}

impl<'a> Drop for Moves<'a> {
    fn drop(self) {
        let Moves { world: _, moves: _ } = self;
    }
}

impl<'a> Model for Moves<'a> {
    ghost use Rattle.indexmap.specs.IndexMap.{get};
    ghost use Rattle.net_types.specs.World.{World};
    ghost use Rattle.net_view.specs.Borrowed.{world_of};
    ghost use Rattle.walk_trace.specs.Kept.{AllKept, AreMovesOf, same_key};

    ghost Value = { World };

    ghost view = { λ m. world_of m.world };

    ghost invariant = { λ m. AllKept (AreMovesOf (world_of m.world)) (get same_key m.moves) };
}

impl<'a> Moves<'a> {
    ghost use Rattle.net_view.specs.Borrowed.{world_of};

    /// Of a network of which nothing is kept yet.
    pub(crate) fn of(alloc: Global, world: WorldRef<'a>) -> Moves<'a>
        ensures { result ≡ world_of world.entry }
    {
        Moves {
            world,
            moves: IndexMap::new(alloc),
        }
    }

    /// The moves of a state, if they are kept.
    pub(crate) fn get(&self, state: &State) -> Option<&[Move]>
        ensures { IfSome result (λ moves. moves.now ≡ ordered_moves self.now state.now) }
    {
        match self.moves.get(&key_of(state)) {
            Some(moves) => Some(moves.as_slice()),
            None => None,
        }
    }

    /// Keeps the moves of a state.
    pub(crate) fn keep(&mut self, state: &State, moves: Vec<Move>) -> Result<(), NoMemory>
        requires { moves.items ≡ ordered_moves self.old state.now }
        ensures { self.new ≡ self.old }
    {
        self.moves.insert(key_of(state), List::new(moves))?;
        Ok(())
    }
}
