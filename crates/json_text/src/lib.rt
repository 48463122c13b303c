//! Documents of JSON: strings, numbers, and what of a network stands in them. What each function adds is said by `specs/Json`, byte by
//! byte; where memory runs out, a part of it may stand there.
#![tactic(auto)]

mod chunks;
mod field_text;
mod header_json;
mod json;

pub use chunks::{Chunk, append_chunks, append_count, append_texts};
pub use field_text::{address_field_bytes, number_field_bytes};
pub use header_json::append_header_members;
pub use json::{
    append_member, append_outcomes_array, append_place_members, append_rows, append_string,
};
