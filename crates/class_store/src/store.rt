//! The store: a fixed number of cells, in whose windows labels are interned as classes, and classes are compared.

ghost use Rattle.std.specs.Prelude.{◌≡◌, ◌≢◌, ◌↔◌, ◌<◌, ◌≤◌, IfOk, IsTrue, Some, length, slice_get};
ghost use Rattle.once_cell.specs.Once.{cell_name};
ghost use Rattle.class_store.specs.Windows.{window, window_start};

use crate::cell::{Offered, agree, offer, value};
use crate::class::{Class, Held};
use crate::known::Known;
use net_types::{Label, NoMemory};
use once_cell::race::OnceBox;
use std::alloc::Global;
use std::cmp::Ordering;
use std::hash::{FoldHasher, Hash, Hasher};
use std::marker::Model;

/// The number of neighbouring cells in which a label may stand.
const WINDOW: usize = 32;

/// A fixed number of cells, each set at most once, that threads share by reference.
///
/// In contracts a store is the list of the names of its cells, in order.
#[derive(Drop)]
pub struct ClassStore {
    cells: Vec<OnceBox<Label>>,
    alloc: Global,
}

impl Model for ClassStore {
    ghost use Rattle.std.specs.Prelude.{ℕ, List, map, length, ◌≤◌};
    ghost use Rattle.once_cell.specs.Once.{cell_name};

    ghost Value = { List ℕ };

    ghost view = { λ s. map cell_name s.cells.items };

    ghost invariant = { λ s. (32 ≤ length s.cells.items) × (length s.cells.items ≤ 1048576) };
}

impl ClassStore {
    ghost use Rattle.class_store.specs.Classes.{IsClass, IsSameCell, label_of};

    /// A store of so many cells, all empty: from 32 to 1,048,576.
    pub fn new(alloc: Global, cells: u32) -> Result<ClassStore, NoMemory>
        requires least { 32 ≤ cells }
        requires most { cells ≤ 1048576 }
        ensures { IfOk result (λ store. length store ≡ cells) }
    {
        let mut empty = Vec::with_capacity(alloc, cells as usize)?;
        for _ in 0..cells {
            empty.push(OnceBox::new(alloc))?;
        }
        Ok(ClassStore {
            cells: empty,
            alloc,
        })
    }

    // The cell of a window that has this offset in it, from 0 to 31.
    fn cell(&self, start: usize, offset: usize) -> &OnceBox<Label>
        requires start { start < length self.now }
        requires offset { offset < 32 }
        ensures { slice_get (window self.now start) offset ≡ Some (cell_name result.now) }
    {
        let cells = self.cells.as_slice();
        let at = start + offset;
        if at < cells.len() {
            &cells[at]
        } else {
            &cells[at - cells.len()]
        }
    }

    // Where the window of a label begins.
    fn window_start(&self, label: &Label) -> usize
        ensures start { result ≡ window_start label.now (length self.now) }
        ensures within { result < length self.now }
    {
        let mut hasher = FoldHasher::default();
        label.as_slice().hash(&mut hasher);
        let count = self.cells.len() as u64;
        (hasher.finish() % count) as usize
    }

    /// The class of a label: the first cell of its window that holds it, which is filled if it is empty.
    ///
    /// Where all 32 cells of the window hold other labels, and only there, the class stands alone and keeps the label.
    /// At `NoMemory` every class that was handed out keeps its label, since a cell is never changed.
    #[tactic(auto, using(crate::proofs::ClassLemmas::others_more))]
    pub fn intern(&self, label: Label) -> Result<Class, NoMemory>
        ensures class { IfOk result (IsClass self.now) }
        ensures label { IfOk result (λ class. label_of class ≡ label) }
    {
        let start = self.window_start(&label);
        let mut passed = Vec::new(self.alloc);
        let mut label = label;
        for offset in 0..WINDOW {
            match offer(self.alloc, self.cell(start, offset), label)? {
                Offered::Holds { known } => {
                    return Ok(Class {
                        start,
                        passed,
                        held: Held::Cell { known },
                    });
                }
                Offered::Other { known, back } => {
                    passed.push(known)?;
                    label = back;
                }
            }
        }
        Ok(Class {
            start,
            passed,
            held: Held::Alone { label },
        })
    }

    /// The label of a class of this store.
    #[tactic(auto, using(crate::proofs::ClassLemmas::cell_within))]
    pub fn label<'a>(&'a self, class: &'a Class) -> &'a Label
        requires of_store { IsClass self.now class.now }
        ensures { result.now ≡ label_of class.now }
    {
        match &class.held {
            Held::Cell { known } => value(self.cell(class.start, class.passed.len()), known),
            Held::Alone { label } => label,
        }
    }

    /// Whether the labels of two classes of this store are equal. Then they stand in one cell, or both alone: no label has
    /// two cells, whichever threads interned it.
    pub fn same(&self, one: &Class, other: &Class) -> bool
        requires one { IsClass self.now one.now }
        requires other { IsClass self.now other.now }
        ensures labels { IsTrue result ↔ (label_of one.now ≡ label_of other.now) }
        ensures cell { IsTrue result → IsSameCell one.now other.now }
    {
        if one.start != other.start {
            return false;
        }
        match one.passed.len().cmp(&other.passed.len()) {
            Ordering::Less => {
                self.tell_apart(one, other);
                false
            }
            Ordering::Equal => self.same_cell(one, other),
            Ordering::Greater => {
                self.tell_apart(other, one);
                false
            }
        }
    }

    // A class that stands in a cell another class has passed has another label.
    #[tactic(auto, using(crate::proofs::ClassLemmas::passed_most, crate::proofs::ClassLemmas::passed_cell, crate::proofs::ClassLemmas::passed_value))]
    fn tell_apart(&self, first: &Class, later: &Class)
        requires first { IsClass self.now first.now }
        requires later { IsClass self.now later.now }
        requires start { first.now.start ≡ later.now.start }
        requires passed { length first.now.passed.items < length later.now.passed.items }
        ensures { label_of first.now ≢ label_of later.now }
    {
        let offset = first.passed.len();
        let Held::Cell { known } = &first.held else {
            unreachable!()
        };
        agree(self.cell(first.start, offset), known, &later.passed[offset]);
    }

    // Two classes that have passed the same cells hold one cell, or both stand alone.
    fn same_cell(&self, one: &Class, other: &Class) -> bool
        requires one { IsClass self.now one.now }
        requires other { IsClass self.now other.now }
        requires start { one.now.start ≡ other.now.start }
        requires passed { length one.now.passed.items ≡ length other.now.passed.items }
        ensures { IsTrue result ↔ (label_of one.now ≡ label_of other.now) }
    {
        match &one.held {
            Held::Cell { known } => {
                let Held::Cell { known: second } = &other.held else {
                    unreachable!()
                };
                agree(self.cell(one.start, one.passed.len()), known, second);
                true
            }
            Held::Alone { label } => {
                let Held::Alone { label: second } = &other.held else {
                    unreachable!()
                };
                label.same(second)
            }
        }
    }
}
