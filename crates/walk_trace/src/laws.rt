//! Laws of the definitions: the numbered states and their moves in the words of the rules. Each function here is a statement;
//! its body is empty.

ghost use Rattle.std.specs.Prelude.{◌≡◌, ◌↔◌, ◌+◌, ℕ, Contains, drop, flat_map, fold, length};
ghost use Rattle.net_types.specs.declared.network.State.{State};
ghost use Rattle.net_types.specs.Moves.{moves};
ghost use Rattle.net_types.specs.World.{World};
ghost use Rattle.walk_trace.specs.Numbered.{next_in_order, numbered, ordered_moves, with_state};
ghost use Rattle.walk_trace.specs.Outcomes.{HasWalkBelow, SameSet};

/// The moves that a trace tells, one for each choice in order, are the moves of the state.
pub fn moves_are_those_of_choices()
    ensures { (w : World) (u : State) → SameSet (ordered_moves w u) (moves w u.place u.header) }
{}

/// A state is numbered exactly where a walk of fewer moves than the TTL leads to it.
pub fn numbered_are_reached()
    ensures { (w : World) (t : ℕ) (s u : State) → Contains (numbered w t s) u ↔ HasWalkBelow w t s u }
{}

/// Numbers go by breadth: with a TTL that is greater by one, the states that had been found last give their next states, in
/// order, and those of them that have no number get the next numbers.
pub fn numbers_go_by_breadth()
    ensures { (w : World) (n : ℕ) (s : State) → numbered w (n + 2) s ≡ fold with_state (numbered w (n + 1) s) (flat_map (next_in_order w) (drop (length (numbered w n s)) (numbered w (n + 1) s))) }
{}
