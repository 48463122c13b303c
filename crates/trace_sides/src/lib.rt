//! Two traces of one packet, of an old and of a new network, side by side: the states that both begin with stand once, and behind
//! them stands what each goes on with. So the first device that treats the packet otherwise is seen at once, and by which entry,
//! route or rule.
#![tactic(auto)]

mod indented;
pub mod laws;
mod sides;
mod text;

pub use sides::shared;
pub use text::{first_bytes, rest_bytes, sides_bytes};
