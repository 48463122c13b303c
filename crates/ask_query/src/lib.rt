//! Questions on a network: whether all headers of a filter that enter at one place may end at another, whether none may,
//! and whether none goes round in a loop. A question that doesn't hold is answered with the least header that breaks it.
//!
//! Nothing is done cube by cube: the headers that break a question are one set, found by walks of sets of headers. Questions that
//! share walks have one slot; workers answer the slots side by side.
#![tactic(auto)]

mod answering;
mod answers;
mod asked;
mod devices;
mod fields;
mod gathering;
mod reaching;
mod reading;
mod refusal;
mod shared;
mod slots;
mod workers;

pub use asked::answer;
pub use reading::read_questions;
pub use refusal::{QuestionFail, QuestionRefusal};
pub use workers::answers_by;
