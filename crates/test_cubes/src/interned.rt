//! Classes of numbered labels, made by threads that share a store.
ghost use Rattle.std.specs.Prelude.{All, IfOk};
ghost use Rattle.class_store.specs.Classes.{IsClass};

use crate::labels::label;
use class_store::{Class, ClassStore};
use net_types::NoMemory;
use std::alloc::Global;
use std::thread;
use std::thread::Threads;

/// The labels of a thread: the first so many, in their order, or in the reverse for every second thread.
#[derive(Clone, Copy)]
pub(crate) struct Round {
    pub count: u32,
    pub thread: usize,
}

impl Round {
    /// The number of the label at this position of the round.
    pub(crate) fn number_at(self, position: u32) -> u32 {
        if self.thread % 2 == 0 {
            position
        } else {
            self.count.saturating_sub(1).saturating_sub(position)
        }
    }

    /// The number of another label, which is further away the higher the thread's number is. None where there is but one.
    pub(crate) fn other(self, number: u32) -> Option<usize> {
        if self.count == 0 {
            return None;
        }
        let number = number as usize;
        let other = number.wrapping_add(self.thread).wrapping_add(1) % self.count as usize;
        (other != number).then_some(other)
    }

    /// The classes of the labels, in the order of the round.
    pub(crate) fn intern_all(
        self,
        alloc: Global,
        store: &ClassStore,
    ) -> Result<Vec<Class>, NoMemory>
        ensures of_store { IfOk result (λ classes. All (IsClass store.now) classes.items) }
    {
        let mut classes = Vec::new(alloc);
        for position in 0..self.count {
            let number = self.number_at(position);
            classes.push(store.intern(label(alloc, number)?)?)?;
        }
        Ok(classes)
    }
}

/// Whether the classes of a drop are the same that two threads make in a store of 32 cells.
pub(crate) fn intern_twice<R: Threads + Sync>(rt: &R, alloc: Global) -> Result<bool, NoMemory> {
    let store = ClassStore::new(alloc, 32)?;
    let store = &store;
    let (one, other) = thread::join(
        rt,
        move || -> Result<Class, NoMemory>
            ensures { IfOk result (IsClass store.entry.now) }
        { store.intern(label(alloc, 0)?) },
        move || -> Result<Class, NoMemory>
            ensures { IfOk result (IsClass store.entry.now) }
        { store.intern(label(alloc, 0)?) },
    );
    Ok(store.same(&one?, &other?))
}
