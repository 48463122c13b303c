//! Labels that threads share, each as a class of a store: two classes of one store are the same exactly where their
//! labels are equal, whichever threads made them.
//!
//! No call waits for another thread.
#![tactic(auto)]

mod cell;
mod class;
mod known;
mod store;

pub use class::Class;
pub use store::ClassStore;

// Stores and classes may go to other threads and be shared by them, which the prover shows where a function asks for it.
fn is_shared<T: Send + Sync>(_value: &T) {}

fn are_shared(store: &ClassStore, class: &Class) {
    is_shared(store);
    is_shared(class);
}
