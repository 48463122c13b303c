//! What the lines of a configuration are made of: words that are read from left to right up to the first fault, what a
//! command does, and the names and entries that are known so far.
#![tactic(auto)]

mod book;
mod effect;
mod fault;
mod names;
mod words;

pub use book::EntryBook;
pub use effect::{
    Action, Change, Effect, ListLine, Section, WrittenAddress, WrittenInterface, WrittenList,
    WrittenRoute,
};
pub use fault::{Fault, Kind, ReadError, Refusal};
pub use names::NameList;
pub use net_text::cut;
pub use words::{
    Plain, Refuses, after, allowed, begins, end, first, hop, is, next, read_address, read_mask,
    read_number, refuse,
};
