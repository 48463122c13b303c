//! The rows of many functions from headers to pairs of labels, one function a slot, found by workers.
//!
//! A function is made once, by the worker that first needs it, and kept in a cell of its slot that all workers read.
//! A worker reads the rows of a region off the diagram of its slot's function, one for each way down to a pair. Where these
//! are too many for one worker, the region is halved and each half may go to another. The rows of a slot are those of its
//! regions, in order.
#![tactic(auto)]

mod function;
mod joined;
mod kept;
mod label_pairs;
mod leaves;
mod order;
mod region_rows;
mod splitter;
mod work;
mod workers;

pub use function::PairFunction;
pub use kept::Pairing;
pub use label_pairs::LabelPairs;
pub use leaves::SlotRows;
pub use splitter::PairSource;
pub use work::rows_of_function;
pub use workers::rows_by_workers;
