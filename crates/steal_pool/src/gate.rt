//! A gate before each task.

/// Each worker passes the gate before it works on a task, in its own thread. The calling thread doesn't. That it is passed is tested;
/// no contract says it.
pub trait Gate {
    /// Returns when the task of this ticket may be worked on.
    fn pass(&self, ticket: u64);
}

/// A gate that is always open: it returns at once.
#[derive(Clone, Copy, Debug)]
pub struct OpenGate;

impl Gate for OpenGate {
    fn pass(&self, _ticket: u64) {}
}
