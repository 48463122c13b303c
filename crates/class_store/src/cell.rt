//! One cell of a store: the value it is known to hold, and the offer of a label to it, which it takes where it is empty.

ghost use Rattle.std.specs.Prelude.{◌≡◌, IfOk};
ghost use Rattle.once_cell.specs.Once.{cell_name};

use crate::known::Known;
use net_types::{Label, NoMemory};
use once_cell::race::OnceBox;
use std::alloc::Global;

/// The value that a cell is known to hold.
pub(crate) fn value<'a, T>(cell: &'a OnceBox<T>, known: &Known<T>) -> &'a T
    requires { known.now.cell ≡ cell_name cell.now }
    ensures { result.now ≡ known.now.value }
{
    let mut note = cell.note();
    known.tell(&mut note);
    match cell.get_as(&mut note) {
        Some(value) => value,
        None => unreachable!(),
    }
}

/// What is known of one cell agrees, since it holds one value. The cell isn't read.
pub(crate) fn agree<T>(cell: &OnceBox<T>, one: &Known<T>, other: &Known<T>)
    requires one { one.now.cell ≡ cell_name cell.now }
    requires other { other.now.cell ≡ cell_name cell.now }
    ensures { one.now.value ≡ other.now.value }
{
    let mut note = cell.note();
    one.tell(&mut note);
    let mut second = cell.note();
    other.tell(&mut second);
    note.compare(second);
}

/// What a cell answers to a label.
#[derive(Drop)]
pub(crate) enum Offered {
    /// It holds this label.
    Holds { known: Known<Label> },
    /// It holds another one, and the label comes back.
    Other { known: Known<Label>, back: Label },
}

ghost use Rattle.class_store.specs.Offers.{Answers};

/// Offers a label to a cell, which takes it if it is empty. Where another thread comes first, the cell holds that thread's
/// label from then on.
pub(crate) fn offer(alloc: Global, cell: &OnceBox<Label>, label: Label) -> Result<Offered, NoMemory>
    ensures { IfOk result (Answers (cell_name cell.now) label) }
{
    let mut note = cell.note();
    if let Some(first) = cell.get_as(&mut note) {
        return Ok(answer(first, Known::of(&mut note), label));
    }
    match cell.set_as(Box::new(alloc, label)?, &mut note) {
        Ok(()) => Ok(Offered::Holds {
            known: Known::of(&mut note),
        }),
        Err(late) => {
            let known = Known::of(&mut note);
            Ok(answer(value(cell, &known), known, Box::into_inner(late)))
        }
    }
}

// What a cell that holds the first label answers to the second.
fn answer(first: &Label, known: Known<Label>, label: Label) -> Offered
    requires { first.now ≡ known.value }
    ensures { Answers known.cell label result }
{
    if first.same(&label) {
        Offered::Holds { known }
    } else {
        Offered::Other { known, back: label }
    }
}
