//! Questions on the headers that enter a network at a place, and the answers to them.

use crate::Place;
use hdr_bits::{Cube, Header};

/// What a question asks of the headers of its filter.
#[derive(Clone, Copy, Debug, PartialEq, Eq)]
pub enum QuestionKind {
    /// Whether each may end at the second place.
    Reach,
    /// Whether none may.
    Isolate,
    /// Whether no walk of one is twice at one place with one header.
    NoLoop,
}

/// A question on all headers of a filter that enter a network at a place.
#[derive(Clone, Copy, Debug, PartialEq, Eq)]
pub struct Question {
    pub kind: QuestionKind,
    /// Where the headers enter.
    pub from: Place,
    /// The place of which a reach and an isolate speak, and none in a noloop.
    pub to: Option<Place>,
    pub filter: Cube,
}

/// What a question is answered.
#[derive(Clone, Copy, Debug, PartialEq, Eq)]
pub enum Answer {
    /// No header of the filter breaks it.
    Holds,
    /// This is the least header of the filter, by its number, that breaks it.
    Fails { header: Header },
}
