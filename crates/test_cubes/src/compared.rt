//! The classes of all threads, beside those of the first.
ghost use Rattle.std.specs.Prelude.{◌<◌, ◌≤◌, All, IfOk};
ghost use Rattle.std.specs.Option.{ForSome};
ghost use Rattle.class_store.specs.Classes.{IsClass};

use crate::interned::Round;
use crate::labels::label;
use class_store::{Class, ClassStore};
use net_types::NoMemory;
use std::alloc::Global;
use std::thread;
use std::thread::Threads;

/// A store, and who works on it.
#[derive(Clone, Copy)]
pub(crate) struct Case {
    /// The cells of the store.
    pub cells: u32,
    /// How many labels each thread interns.
    pub labels: u32,
    pub threads: usize,
}

/// How often classes were as they have to be.
#[derive(Clone, Copy)]
pub(crate) struct Compared {
    /// Classes whose label is the one that was interned.
    pub read: u64,
    /// Classes that are the same as the first thread's of that label.
    pub same: u64,
    /// Classes that are the same as the first thread's of another label.
    pub confused: u64,
}

impl Compared {
    fn none() -> Compared {
        Compared {
            read: 0,
            same: 0,
            confused: 0,
        }
    }

    fn plus(self, other: Compared) -> Compared {
        Compared {
            read: self.read.saturating_add(other.read),
            same: self.same.saturating_add(other.same),
            confused: self.confused.saturating_add(other.confused),
        }
    }
}

/// Interns the labels of a case in all its threads, and compares their classes.
pub(crate) fn compare_all<R: Threads + Sync>(
    rt: &R,
    alloc: Global,
    case: Case,
) -> Result<Compared, NoMemory>
    requires cells { (32 ≤ case.cells) × (case.cells ≤ 1048576) }
    requires threads { 0 < case.threads }
{
    let store = ClassStore::new(alloc, case.cells)?;
    let store = &store;
    let count = case.labels;
    let work = move |thread: usize| -> Result<Vec<Class>, NoMemory>
        ensures { IfOk result (λ classes. All (IsClass store.entry.now) classes.items) }
    { Round { count, thread }.intern_all(alloc, store) };
    let made = thread::map_indices(rt, alloc, case.threads, &work)?;
    let Ok(first) = &made[0] else {
        return Err(NoMemory);
    };
    let mut found = Compared::none();
    for thread in 0..made.len() {
        let Ok(classes) = &made[thread] else {
            return Err(NoMemory);
        };
        found = found.plus(compare(alloc, store, Round { count, thread }, first, classes)?);
    }
    Ok(found)
}

// The classes of a thread beside those of the first, which are in the order of their numbers: each beside that of its
// label, and beside that of another one.
fn compare(
    alloc: Global,
    store: &ClassStore,
    round: Round,
    first: &[Class],
    classes: &[Class],
) -> Result<Compared, NoMemory>
    requires first { All (IsClass store.now) first.now }
    requires classes { All (IsClass store.now) classes.now }
{
    let mut found = Compared::none();
    for (class, position) in classes.iter().zip(0..round.count) {
        let number = round.number_at(position);
        let read = store.label(class).same(&label(alloc, number)?);
        let same = is_same(store, class, first.get(number as usize));
        let other = round.other(number).and_then(|other| first.get(other));
        let confused = is_same(store, class, other);
        found = found.plus(Compared {
            read: u64::from(read),
            same: u64::from(same),
            confused: u64::from(confused),
        });
    }
    Ok(found)
}

fn is_same(store: &ClassStore, class: &Class, known: Option<&Class>) -> bool
    requires class { IsClass store.now class.now }
    requires known { ForSome known (λ other. IsClass store.now other.now) }
{
    match known {
        Some(known) => store.same(class, known),
        None => false,
    }
}
