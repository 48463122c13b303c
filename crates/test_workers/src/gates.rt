//! Gates that note who passes.

use std::sync::atomic::{AtomicU64, Ordering};
use steal_pool::Gate;

/// The tasks of the tickets 0 and 1 wait for each other before they go on.
#[derive(Drop)]
pub struct Meeting {
    first: AtomicU64,
    second: AtomicU64,
    gave_up: AtomicU64,
}

impl Meeting {
    pub fn new() -> Meeting {
        Meeting {
            first: AtomicU64::new(0),
            second: AtomicU64::new(0),
            gave_up: AtomicU64::new(0),
        }
    }

    /// How many of the two have passed.
    pub fn noted(&self) -> u64 {
        let first = self.first.load(Ordering::SeqCst).min(1);
        let second = self.second.load(Ordering::SeqCst).min(1);
        first + second
    }

    /// How many gave up waiting.
    pub fn gave_up(&self) -> u64 {
        self.gave_up.load(Ordering::SeqCst)
    }

    fn look_for(&self, other: &AtomicU64) {
        for _ in 0..100_000_000u64 {
            if other.load(Ordering::SeqCst) > 0 {
                return;
            }
        }
        self.gave_up.fetch_add(1, Ordering::SeqCst);
    }
}

impl Gate for Meeting {
    fn pass(&self, ticket: u64) {
        if ticket == 0 {
            self.first.store(1, Ordering::SeqCst);
            self.look_for(&self.second);
        } else if ticket == 1 {
            self.second.store(1, Ordering::SeqCst);
            self.look_for(&self.first);
        }
    }
}

/// The second task that passes waits until a third one has come, which only another worker can bring.
#[derive(Drop)]
pub struct Relay {
    passed: AtomicU64,
    gave_up: AtomicU64,
}

impl Relay {
    pub fn new() -> Relay {
        Relay {
            passed: AtomicU64::new(0),
            gave_up: AtomicU64::new(0),
        }
    }

    /// How many tasks have passed.
    pub fn passed(&self) -> u64 {
        self.passed.load(Ordering::SeqCst)
    }

    /// How many gave up waiting.
    pub fn gave_up(&self) -> u64 {
        self.gave_up.load(Ordering::SeqCst)
    }
}

impl Gate for Relay {
    fn pass(&self, _ticket: u64) {
        if self.passed.fetch_add(1, Ordering::SeqCst) != 1 {
            return;
        }
        for _ in 0..100_000_000u64 {
            if self.passed.load(Ordering::SeqCst) > 2 {
                return;
            }
        }
        self.gave_up.fetch_add(1, Ordering::SeqCst);
    }
}

/// The task of one ticket is kept back while the others work, find no more tasks, and wait for it.
#[derive(Drop)]
pub struct Late {
    pub ticket: u64,
    opened: AtomicU64,
}

impl Late {
    pub fn new(ticket: u64) -> Late {
        Late {
            ticket,
            opened: AtomicU64::new(0),
        }
    }
}

impl Gate for Late {
    fn pass(&self, ticket: u64) {
        if ticket != self.ticket {
            return;
        }
        for _ in 0..20_000_000u64 {
            if self.opened.load(Ordering::SeqCst) > 0 {
                return;
            }
        }
        // A part that gets the same ticket later isn't kept back.
        self.opened.store(1, Ordering::SeqCst);
    }
}
