//! What follows from the definitions. Each function is a statement; its body is empty.

ghost use Rattle.std.specs.Prelude.{◌≡◌, ℕ, List};
ghost use Rattle.net_types.specs.declared.network.Names.{Names};
ghost use Rattle.walk_trace.specs.declared.types.Trace.{Trace};
ghost use Rattle.trace_sides.specs.Indented.{indented, outdented};
ghost use Rattle.trace_sides.specs.Sides.{AreWhole, PartAt, shared};

/// Both traces can be read off: their texts are what stands once, and behind that what each goes on with.
pub fn traces_are_whole()
    ensures { (names : Names) (old new : Trace) → AreWhole names (shared names old new) old new }
{}

/// Behind the states that stand once, the two traces part.
pub fn traces_part_there()
    ensures { (names : Names) (old new : Trace) → PartAt names (shared names old new) old new }
{}

/// The blanks before the lines can be taken away again.
pub fn lines_come_back()
    ensures { (text : List ℕ) → outdented (indented text) ≡ text }
{}
