//! Labels with their classes in the store that all walks of a comparison share.

ghost use Rattle.std.specs.Prelude.{◌≡◌, ◌↔◌, IfOk, IfSome, IsTrue, length};
ghost use Rattle.std.specs.Option.{option_copied};
ghost use Rattle.net_compare.specs.Classes.{AreClassed, IsClassOf, IsClassedOf, classed_at};

use class_store::{Class, ClassStore};
use net_types::{Duplicate, Label, NoMemory};
use set_walk::OutcomeList;
use std::alloc::Global;

// The cells of the store.
const CELLS: u32 = 65_536;

/// A label with its class, where there was memory for one.
#[derive(Drop)]
pub(crate) struct Classed {
    pub(crate) label: Label,
    pub(crate) class: Option<Class>,
}

/// The store of the classes of all labels that are compared, where there was memory for it.
#[derive(Drop)]
pub(crate) struct Classes {
    store: Option<ClassStore>,
}

impl Classes {
    /// An empty store.
    pub(crate) fn new(alloc: Global) -> Classes
        ensures { IfSome result.store (λ cells. length cells ≡ 65536) }
    {
        Classes {
            store: ClassStore::new(alloc, CELLS).ok(),
        }
    }

    /// For each number the label that stands there, if an outcome does.
    pub(crate) fn classed_all(
        &self,
        alloc: Global,
        labels: &[OutcomeList],
    ) -> Result<Vec<Option<Classed>>, NoMemory>
        ensures { IfOk result (λ all. AreClassed self.now.store labels.now all.items) }
    {
        let mut all = Vec::with_capacity(alloc, labels.len())?;
        for list in labels {
            let classed = self.classed(alloc, list)?;
            all.push(classed)?;
        }
        Ok(all)
    }

    // The label of these outcomes, if there are any.
    fn classed(&self, alloc: Global, list: &OutcomeList) -> Result<Option<Classed>, NoMemory>
        ensures { IfOk result (IsClassedOf self.now.store list.now) }
    {
        let outcomes = list.outcomes.as_slice();
        if outcomes.is_empty() {
            return Ok(None);
        }
        let outcomes = outcomes.to_vec(alloc)?;
        let label = Label::of(outcomes)?;
        let class = self.class_of(alloc, &label);
        Ok(Some(Classed { label, class }))
    }

    fn class_of(&self, alloc: Global, label: &Label) -> Option<Class>
        ensures { IsClassOf self.now.store label.now result }
    {
        let Some(store) = &self.store else {
            return None;
        };
        let Ok(copy) = label.copy(alloc) else {
            return None;
        };
        match store.intern(copy) {
            Ok(class) => Some(class),
            Err(NoMemory) => None,
        }
    }

    /// Whether two labels are equal: their classes tell, where both have one.
    pub(crate) fn same(&self, one: &Classed, other: &Classed) -> bool
        requires one { IsClassOf self.now.store one.now.label one.now.class }
        requires other { IsClassOf self.now.store other.now.label other.now.class }
        ensures { IsTrue result ↔ (one.now.label ≡ other.now.label) }
    {
        match (&self.store, &one.class, &other.class) {
            (Some(store), Some(first), Some(second)) => store.same(first, second),
            _ => one.label.same(&other.label),
        }
    }
}

/// The label at the number, if there is one.
pub(crate) fn classed_at(all: &[Option<Classed>], number: Option<u32>) -> Option<&Classed>
    ensures { option_copied result ≡ classed_at all.now number }
{
    let Some(number) = number else {
        return None;
    };
    match all.get(number as usize) {
        Some(Some(classed)) => Some(classed),
        _ => None,
    }
}
