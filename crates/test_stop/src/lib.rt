//! Why the cases of a test program end early: no memory, or no output.
#![tactic(auto)]

use no_memory::NoMemory;
use std::alloc::{AllocError, AllocFailed};
use std::io;

/// Why the cases end early.
#[derive(Drop)]
pub enum Stop {
    /// There was no memory.
    NoMemory,
    /// A line could not be written.
    Output { error: io::Error },
}

impl From<NoMemory> for Stop {
    fn from(_: NoMemory) -> Self {
        Stop::NoMemory
    }
}

impl From<AllocError> for Stop {
    fn from(_: AllocError) -> Self {
        Stop::NoMemory
    }
}

impl<T: Drop> From<AllocFailed<T>> for Stop {
    fn from(_: AllocFailed<T>) -> Self {
        Stop::NoMemory
    }
}

impl From<io::Error> for Stop {
    fn from(error: io::Error) -> Self {
        Stop::Output { error }
    }
}
