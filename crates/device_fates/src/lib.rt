//! What a device does with every destination, as one function of a table of decision diagrams.
//!
//! A destination is dropped at once, is the device's own, or is sent on by the choices of its lookup. The rules are those
//! of `Moves` and `Routes` among the definitions of the crate of types. Each device is a function from headers to numbers
//! of fates. A fate that was met before keeps its number, unless another fate has its hash, and so does a function: of two
//! devices with the same interfaces and routes the second adds nothing.
#![tactic(auto)]

mod add;
mod cubes;
mod fate;
mod fates;
mod hash;
mod pieces;
mod same;

pub use add::add_device;
pub use fate::Fate;
pub use fates::Fates;
