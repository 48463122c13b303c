//! The one answer that each call with a need of memory may give: there was none.
#![tactic(auto)]

use std::alloc::{AllocError, AllocFailed};

/// There was no memory for the answer.
///
/// A call that answers this has changed nothing that its contract doesn't name. No contract says when
/// the answer comes, since no caller can know how much memory the machine has left.
#[derive(Clone, Copy, Debug, PartialEq, Eq)]
pub struct NoMemory;

impl From<AllocError> for NoMemory {
    fn from(_: AllocError) -> Self {
        NoMemory
    }
}

impl<T: Drop> From<AllocFailed<T>> for NoMemory {
    fn from(_: AllocFailed<T>) -> Self {
        NoMemory
    }
}
