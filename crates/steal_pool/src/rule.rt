//! The rule of a lane: what the deque holds, and what each of its ports knows. The five kinds of step are push, take,
//! steal, split and join; each keeps the rule.

ghost use Rattle.std.specs.Prelude.{ℕ, List};
ghost use Rattle.steal_pool.specs.Paths.{Path};

use crossbeam_deque::protocol::{Join, Lesson, Outcome, Protocol, Split};
use cube_alg::Region;
use std::collections::LinkedList;
use std::marker::{Brand, PhantomData};

/// A region to be worked on, with its ticket on the board and its place among all tasks that were pushed to its lane.
#[derive(Clone, Copy, PartialEq, Eq, Debug)]
pub struct Task {
    pub place: u64,
    pub ticket: u64,
    pub region: Region,
}

// What a port of the deque knows: all tasks that were pushed (at the owner's port alone), the tasks that it took, and its
// paths. No value of it is made.
pub struct View {
    pub pushed: LinkedList<Task>,
    pub taken: LinkedList<Task>,
    pub paths: LinkedList<LinkedList<bool>>,
}

// What holds of a lane between any two steps.
pub struct LaneRule;

impl Protocol<Task, View> for LaneRule {
    ghost use Rattle.std.specs.Prelude.{[]};
    ghost use Rattle.steal_pool.specs.Paths.{extensions, levels};
    ghost use Rattle.steal_pool.specs.Lane.{seat, IsLane};

    ghost holds = { IsLane };

    ghost first = { seat [] [] (extensions levels []) };

    ghost guest = { seat [] [] [] };
}

// The owner adds a task at the back.
pub struct Push;

impl Outcome<Task, View> for Push {
    ghost use Rattle.std.specs.Prelude.{◌≡◌, ◌++◌};
    ghost use Rattle.steal_pool.specs.Lane.{seat};

    ghost then = { λ v xs w. w ≡ seat (v.pushed ++ xs) v.taken v.paths };
}

// A port takes the task at the front.
pub struct Take;

impl Outcome<Task, View> for Take {
    ghost use Rattle.steal_pool.specs.Lane.{TakesFirst, WasEmpty};

    ghost then = { TakesFirst };

    ghost empty = { WasEmpty };
}

// The owner's take: on a gathered lane nothing is left where it finds nothing.
pub struct TakeByOwner;

impl Outcome<Task, View> for TakeByOwner {
    ghost use Rattle.std.specs.Prelude.{[]};
    ghost use Rattle.steal_pool.specs.Lane.{TakesFirst, WasEmpty, Gathers};

    ghost then = { TakesFirst };

    ghost empty = { λ v. WasEmpty v × Gathers v [] };
}

// The owner makes a port, which gets its first path.
pub struct Cut;

impl Split<View> for Cut {
    ghost use Rattle.std.specs.Prelude.{[], drop, take};
    ghost use Rattle.steal_pool.specs.Lane.{seat};

    ghost left = { λ v. seat v.pushed v.taken (drop 1 v.paths) };

    ghost right = { λ v. seat [] [] (take 1 v.paths) };
}

// The owner takes in a port: its paths and its tasks.
pub struct Add;

impl Join<View> for Add {
    ghost use Rattle.std.specs.Prelude.{[], ◌++◌};
    ghost use Rattle.steal_pool.specs.Lane.{seat};

    ghost both = { λ v w. seat v.pushed (v.taken ++ w.taken) (v.paths ++ w.paths) };

    ghost spent = { seat [] [] [] };
}

// The owner's paths after it took in a port, in the form that the proof names.
pub trait Shares {
    ghost paths: { List Path };
}

impl Shares for Brand {
    ghost use Rattle.std.specs.Prelude.{[]};

    ghost paths = { [] };
}

// The owner takes in a port, and its paths become these.
pub struct Gain<K: Shares> {
    of: PhantomData<K>,
}

impl<K: Shares> Join<View> for Gain<K> {
    ghost use Rattle.std.specs.Prelude.{[], ◌++◌};
    ghost use Rattle.steal_pool.specs.Lane.{seat};

    ghost both = { λ v w. seat v.pushed (v.taken ++ w.taken) K.paths };

    ghost spent = { seat [] [] [] };
}

// What the owner of a gathered lane knows of the tasks that are left.
pub struct Gathered;

impl Lesson<Task, View> for Gathered {
    ghost use Rattle.steal_pool.specs.Lane.{Gathers};

    ghost fact = { Gathers };
}
