//! A gate at which two workers meet.

use std::sync::atomic::{AtomicU64, Ordering};
use steal_pool::Gate;

/// The tasks of the tickets 0 and 1 wait for each other before they go on. One worker alone waits in vain, whichever of the two
/// it takes first, and gives up.
#[derive(Drop)]
pub(crate) struct Meeting {
    first: AtomicU64,
    second: AtomicU64,
    gave_up: AtomicU64,
}

impl Meeting {
    pub(crate) fn new() -> Meeting {
        Meeting {
            first: AtomicU64::new(0),
            second: AtomicU64::new(0),
            gave_up: AtomicU64::new(0),
        }
    }

    /// How many of the two have passed.
    pub(crate) fn noted(&self) -> u64 {
        let first = self.first.load(Ordering::SeqCst).min(1);
        let second = self.second.load(Ordering::SeqCst).min(1);
        first + second
    }

    /// How many gave up waiting.
    pub(crate) fn gave_up(&self) -> u64 {
        self.gave_up.load(Ordering::SeqCst)
    }

    fn look_for(&self, other: &AtomicU64) {
        for _ in 0..100_000_000u64 {
            if other.load(Ordering::SeqCst) > 0 {
                return;
            }
        }
        self.gave_up.fetch_add(1, Ordering::SeqCst);
    }
}

impl Gate for Meeting {
    fn pass(&self, ticket: u64) {
        if ticket == 0 {
            self.first.store(1, Ordering::SeqCst);
            self.look_for(&self.second);
        } else if ticket == 1 {
            self.second.store(1, Ordering::SeqCst);
            self.look_for(&self.first);
        }
    }
}
