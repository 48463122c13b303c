//! What an engineer has to know of a network's texts before a comparison is believed: what was refused, what was passed over
//! and is worth a look, what is odd in a configuration or in a link table, and which limits of the model the network meets.
//!
//! The notes are lists, `specs/Doctor.antt`; how they are written is in `specs/Texts.antt`. Nothing here reads a file.
#![tactic(auto)]

mod configs;
mod examined;
mod files;
mod folder;
mod heads;
mod hosts;
mod json;
mod limit;
mod lines;
mod listing;
mod network;
mod note_text;
mod passing;
mod tables;
mod text;
mod told;
mod warning;
mod warning_text;
mod wiring;

pub use files::{TextAt, TextFile};
pub use json::notes_document;
pub use limit::{Limit, LimitKind};
pub use listing::ListedLine;
pub use network::{Notes, Subject, Tables, Texts, notes_on};
pub use text::notes_bytes;
pub use warning::{Reason, Warning};
