//! Lists that are joined in constant time and without memory.
//!
//! A rope is seen as its items, in order, and its spare, which says how many more items go in without memory. The
//! items lie in chunks, each with the mark of the chunk behind it, and the rope knows the mark of the last one.
#![tactic(auto)]

mod chain;
mod chunks;
mod cursor;
mod rope;
mod sent;

pub use cursor::Cursor;
pub use rope::Rope;
