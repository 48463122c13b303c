//! The two ends of a lane: the owner, and its thieves.

ghost use Rattle.std.specs.Prelude.{◌≡◌, ◌⊎◌, ◌<◌, ◌≤◌, ◌+◌, ◌-◌, ◌/◌, ◌∷◌, ◌++◌, ◌^◌, ◌↔◌, ℕ, All, vec_len, [], List, length, take, drop, true, false, IfOk, IfErr, IfSome, IfNone, OnOk, OnErr, IsErr, MatchOption, MatchResult};
ghost use Rattle.crossbeam_deque.specs.Handles.{view, IsPassOf};
ghost use Rattle.crossbeam_deque.specs.Steals.{MatchSteal};
ghost use Rattle.steal_pool.specs.declared.rule.Task.{Task};
ghost use Rattle.steal_pool.specs.declared.rule.View.{View};
ghost use Rattle.steal_pool.specs.Paths.{Path, Word, total, begins, MakeWhole};
ghost use Rattle.steal_pool.specs.Lane.{seat, Gathers};
ghost use Rattle.steal_pool.specs.Seats.{OwnerSeat, ThiefSeat, port_paths, Takes, Finds};

use crate::rule::{
    Add, Cut, Gain, Gathered, LaneRule, Push, Shares, Take, TakeByOwner, Task, View,
};
use crossbeam_deque::{Pass, Steal, Stealer, Worker};
use cube_alg::Region;
use no_memory::NoMemory;
use std::alloc::Global;
use std::marker::{Brand, Model};
use std::sync::Wait;

// Each of at most 64 workers has a thief of each lane, and the ports of the thieves are all made with the lane, since only
// its owner can make one. So the first thief has the 64 ports, and a thief has half as many after each split.
const PORTS: usize = 64;

// How often a thief of all the ports can be split in a row.
const LEVELS: u32 = 6;

/// The end of a lane to which tasks are pushed, and from which its one holder takes.
///
/// Contracts see its lane and capacity, all tasks that were pushed, the tasks that it took or that its joined thieves
/// took, and the paths of those thieves.
#[derive(Drop)]
pub struct Owner {
    worker: Worker<Task, Global, View, LaneRule>,
    pushed: u64,
    capacity: u64,
}

impl Model for Owner {
    ghost use Rattle.std.specs.Prelude.{◌≡◌, ◌≤◌, length};
    ghost use Rattle.crossbeam_deque.specs.Handles.{worker_deque, worker_view, worker_flavor, worker_index, worker_capacity, worker_port};
    ghost use Rattle.steal_pool.specs.Seats.{OwnerSeat};

    ghost Value = { OwnerSeat };

    ghost view = { λ s. record { lane = worker_deque s.worker; capacity = s.capacity; pushed = (worker_view s.worker).pushed; taken = (worker_view s.worker).taken; paths = (worker_view s.worker).paths } };

    ghost invariant = { λ s. (worker_flavor s.worker ≡ 0) × (worker_port s.worker ≡ 0) × (s.pushed ≡ length (worker_view s.worker).pushed) × (worker_index s.worker ≤ s.pushed) × (s.capacity ≤ worker_capacity s.worker) };
}

/// An end of a lane from which another thread takes.
///
/// Contracts see its lane, the tasks that it took, how many it knows to have left the lane, and its path, which is its share of the
/// lane: the first thief has the empty path, and a split turns a path into its two extensions.
#[derive(Drop)]
pub struct Thief {
    stealer: Stealer<Task, Global, View, LaneRule>,
    pass: Pass<Task, View>,
    rest: Vec<Pass<Task, View>>,
    levels: u32,
}

impl Model for Thief {
    ghost use Rattle.std.specs.Prelude.{◌≡◌, ◌∷◌, [], All};
    ghost use Rattle.crossbeam_deque.specs.Handles.{view as seen, taken as known, stealer_deque, stealer_flavor, IsPassOf};
    ghost use Rattle.steal_pool.specs.Paths.{extensions};
    ghost use Rattle.steal_pool.specs.Seats.{ThiefSeat, port_paths, singles, path_before};

    ghost Value = { ThiefSeat };

    ghost view = { λ s. record { lane = stealer_deque s.stealer; taken = (seen s.pass).taken; path = path_before s.levels (seen s.pass).paths; gone = known s.pass } };

    ghost invariant = { λ s. (stealer_flavor s.stealer ≡ 0) × IsPassOf (stealer_deque s.stealer) s.pass × All (λ p. IsPassOf (stealer_deque s.stealer) p × ((seen p).taken ≡ [])) s.rest.items × (port_paths (s.pass ∷ s.rest.items) ≡ singles (extensions s.levels (path_before s.levels (seen s.pass).paths))) };
}

impl Owner {
    /// Puts a task last and answers its place, which counts the pushes from 0.
    ///
    /// It hands the region back, and leaves the lane as it was, exactly where `capacity` tasks were pushed before. It takes
    /// no memory and doesn't wait.
    pub fn push(&mut self, ticket: u64, region: Region) -> Result<u64, Region>
        ensures lane { self.new.lane ≡ self.old.lane }
        ensures full { IsErr result ↔ (self.old.capacity ≤ length self.old.pushed) }
        ensures rule { MatchResult result (λ place. (place ≡ length self.old.pushed) × (self.new ≡ record self.old { pushed = self.old.pushed ++ record { place = place; ticket = ticket; region = region } ∷ [] })) (λ r. (r ≡ region) × (self.new ≡ self.old)) }
    {
        if self.pushed >= self.capacity {
            return Err(region);
        }
        let place = self.pushed;
        let task = Task {
            place,
            ticket,
            region,
        };
        let Owner { worker, pushed, .. } = self;
        match worker.push_as::<Push>(task) {
            Ok(()) => {
                *pushed = place + 1;
                Ok(place)
            }
            Err(_) => unreachable!(),
        }
    }

    /// Takes the task of least place that is still in the lane, and answers `None` where it finds none. Of that the contract says
    /// only that some lane under the rule was empty, not which; but where the thieves that were joined had all of this lane, the
    /// tasks that were pushed are then those taken.
    ///
    /// It takes no memory and doesn't wait.
    pub fn take(&mut self) -> Option<Task>
        ensures lane { self.new.lane ≡ self.old.lane }
        ensures rule { MatchOption result ((self.new ≡ self.old) × Finds self.old.taken) (λ t. (self.new ≡ record self.old { taken = self.old.taken ++ t ∷ [] }) × Takes self.old.taken t) }
        ensures drained { IfNone result (MakeWhole self.old.paths → (h : Task → ℕ) → total h self.old.pushed ≡ total h self.old.taken) }
    {
        self.worker.pop_as::<TakeByOwner>()
    }
}

impl Thief {
    // One try to take a task. It is to be made again only where a task has left the lane since this thief last looked, or a lane was
    // empty.
    fn attempt(&mut self) -> Steal<Task>
        ensures lane { self.new.lane ≡ self.old.lane }
        ensures rule { MatchSteal result ((self.new ≡ record self.old { gone = self.new.gone }) × Finds self.old.taken) ((self.new ≡ record self.old { gone = self.new.gone }) × ((self.old.gone < self.new.gone) ⊎ Finds self.old.taken)) (λ t. (self.new ≡ record self.old { taken = self.old.taken ++ t ∷ []; gone = self.new.gone }) × Takes self.old.taken t) }
    {
        self.stealer.steal_as::<Take>(&mut self.pass)
    }

    /// Takes the task of least place that is still in the lane, and answers `None` where it finds none. Of that the contract says
    /// only that some lane under the rule was empty, not which.
    ///
    /// It takes no memory. Where it meets a step of another thread it tries again, so it may wait for that thread.
    pub fn steal<R: Wait>(&mut self, rt: &R) -> Option<Task>
        ensures lane { self.new.lane ≡ self.old.lane }
        ensures rule { MatchOption result ((self.new ≡ record self.old { gone = self.new.gone }) × Finds self.old.taken) (λ t. (self.new ≡ record self.old { taken = self.old.taken ++ t ∷ []; gone = self.new.gone }) × Takes self.old.taken t) }
    {
        for _ in rt.forever() {
            match self.attempt() {
                Steal::Success(task) => return Some(task),
                Steal::Empty => return None,
                Steal::Retry => {}
            }
        }
        unreachable!()
    }
}

impl Owner {
    // Takes in a port.
    fn gain(&mut self, spare: Pass<Task, View>)
        requires { IsPassOf self.old.lane spare }
        ensures { self.new ≡ record self.old { taken = self.old.taken ++ (view spare).taken; paths = self.old.paths ++ (view spare).paths } }
    {
        self.worker.absorb::<Add>(spare);
    }

    // Takes in ports that have taken no task.
    fn gain_all(&mut self, mut spares: Vec<Pass<Task, View>>)
        requires { All (λ p. IsPassOf self.old.lane p × ((view p).taken ≡ [])) spares.items }
        ensures same { self.new ≡ record self.old { paths = self.new.paths } }
        ensures paths { (w : Word) → total (begins w) self.new.paths ≡ total (begins w) self.old.paths + total (total (begins w)) (port_paths spares.items) }
    {
        while let Some(spare) = spares.pop() {
            self.gain(spare);
        }
    }

    // Takes in a thief whose path is named as one.
    fn join_as<K: Shares>(&mut self, thief: Thief)
        requires lane { thief.lane ≡ self.old.lane }
        requires paths { K.paths ≡ self.old.paths ++ thief.path ∷ [] }
        ensures { self.new ≡ record self.old { taken = self.old.taken ++ thief.taken; paths = K.paths } }
    {
        let Thief {
            stealer: _,
            pass,
            rest,
            levels: _,
        } = thief;
        self.gain_all(rest);
        self.worker.absorb::<Gain<K>>(pass);
    }

    // How many tasks are in the lane.
    fn left(&mut self) -> usize
        ensures same { self.new ≡ self.old }
        ensures left { (items : List Task) × (length items ≡ result) × (MakeWhole self.old.paths → (h : Task → ℕ) → total h self.old.pushed ≡ total h self.old.taken + total h items) }
    {
        self.worker.len_as::<Gathered>()
    }

    /// Takes in a thief of this lane: the tasks that it took, and its path.
    ///
    /// Where the paths of the joined thieves make the whole, the lane is gathered: the tasks that were pushed are then those
    /// that this owner lists and those that are left, each once. It takes no memory.
    pub fn join(&mut self, thief: Thief)
        requires { thief.lane ≡ self.old.lane }
        ensures lane { self.new.lane ≡ self.old.lane }
        ensures rule { self.new ≡ record self.old { taken = self.old.taken ++ thief.taken; paths = self.old.paths ++ thief.path ∷ [] } }
        ensures gathered { (left : List Task) × (MakeWhole self.new.paths → (h : Task → ℕ) → total h self.new.pushed ≡ total h self.new.taken + total h left) }
    {
        self.join_as::<Brand>(thief);
        let _left = self.left();
    }

    // A port with the first of the owner's paths.
    fn port(&mut self) -> Pass<Task, View>
        ensures rest { self.new ≡ record self.old { paths = drop 1 self.old.paths } }
        ensures port { IsPassOf self.old.lane result × (view result ≡ seat [] [] (take 1 self.old.paths)) }
    {
        self.worker.another::<Cut>()
    }
}

impl Thief {
    /// A second thief of the lane. The path of this one becomes its extension by 0, and that of the second is the one by 1.
    ///
    /// At `NoMemory` the thief is as before. It comes for want of memory, and where the path has six digits.
    pub fn split(&mut self) -> Result<Thief, NoMemory>
        ensures lane { self.new.lane ≡ self.old.lane }
        ensures extended { IfOk result (λ t. (self.new ≡ record self.old { path = self.old.path ++ false ∷ [] }) × (t ≡ record { lane = self.old.lane; taken = []; path = self.old.path ++ true ∷ []; gone = t.gone })) }
        ensures failed { OnErr result (self.new ≡ self.old) }
    {
        if self.levels == 0 {
            return Err(NoMemory);
        }
        let stealer = self.stealer.clone()?;
        let (pass, rest) = cut_off(&mut self.rest)?;
        self.levels -= 1;
        Ok(Thief {
            stealer,
            pass,
            rest,
            levels: self.levels,
        })
    }
}

// The half of the ports from the middle on, the first apart.
fn cut_off(
    ports: &mut Vec<Pass<Task, View>>,
) -> Result<(Pass<Task, View>, Vec<Pass<Task, View>>), NoMemory>
    requires { 0 < length ports.old.items }
    ensures cut { IfOk result (λ r. (ports.new.items ≡ take (length ports.old.items / 2) ports.old.items) × (r.0 ∷ r.1.items ≡ drop (length ports.old.items / 2) ports.old.items)) }
    ensures failed { OnErr result (ports.new.items ≡ ports.old.items) }
{
    let mut rest = ports.split_off(ports.len() / 2)?;
    let first = rest.remove(0);
    Ok((first, rest))
}

/// A lane of tasks, which several threads take from its front: its owner, to which at most `capacity` tasks can be pushed
/// in all, and its first thief.
pub fn lane(alloc: Global, capacity: usize) -> Result<(Owner, Thief), NoMemory>
    requires { (1 ≤ capacity) × (capacity ≤ 1048576) }
    ensures owner { IfOk result (λ r. r.0 ≡ record { lane = r.1.lane; capacity = capacity; pushed = []; taken = []; paths = [] }) }
    ensures thief { IfOk result (λ r. (r.1.taken ≡ []) × (r.1.path ≡ [])) }
{
    let worker = Worker::fifo_as(alloc, capacity)?;
    let stealer = worker.stealer()?;
    let mut owner = Owner {
        worker,
        pushed: 0,
        capacity: capacity as u64,
    };
    let pass = owner.port();
    let mut rest = Vec::new(alloc);
    for _ in 1..PORTS {
        let port = owner.port();
        rest.push(port)?;
    }
    Ok((
        owner,
        Thief {
            stealer,
            pass,
            rest,
            levels: LEVELS,
        },
    ))
}
