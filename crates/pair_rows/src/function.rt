//! The pairs of labels of all headers, as one function.

ghost use Rattle.std.specs.Prelude.{◌<◌};
ghost use Rattle.cube_diagram.specs.Functions.{count_of};

use crate::label_pairs::LabelPairs;
use cube_diagram::Diagrams;

/// A function that gives some headers the number of a pair of labels.
#[derive(Drop)]
pub struct PairFunction {
    /// The table that has the function.
    pub table: Diagrams,
    /// Its number there.
    pub function: u32,
    /// The pairs by their numbers.
    pub pairs: LabelPairs,
    pub ghost below: { function < count_of table },
}
