//! What stands for a label in a store: where its window begins, the cells that were passed, and where the label is.

use crate::known::Known;
use net_types::Label;

/// What stands for a label in a store: two classes of one store are the same exactly where their labels are equal.
#[derive(Drop)]
pub struct Class {
    /// The first cell of the label's window.
    pub(crate) start: usize,
    /// The first cells of the window, which hold other labels.
    pub(crate) passed: Vec<Known<Label>>,
    pub(crate) held: Held,
}

/// Where the label of a class is.
#[derive(Drop)]
pub(crate) enum Held {
    /// In the cell of the window that follows those that were passed.
    Cell { known: Known<Label> },
    /// Here, since all cells of the window hold other labels.
    Alone { label: Label },
}
