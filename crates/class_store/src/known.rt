//! The knowledge that a cell holds a value for good. It takes no bytes, and threads may share it.

ghost use Rattle.std.specs.Prelude.{◌≡◌, ℕ, IsSome};
ghost use Rattle.std.specs.declared.option.Option.TheVariants.{Some};
ghost use denote.Sharing.{said};
ghost use Rattle.once_cell.specs.Once.{noted};

use once_cell::race::Note;
use std::marker::{Model, PhantomData};

/// What shows that the cell named `cell` holds `value` for good. It takes no bytes.
pub struct Known<T> {
    marker: PhantomData<T>,
    pub ghost cell: { ℕ },
    pub ghost value: { T },
}

impl<T> Model for Known<T> {
    ghost also_owns = { λ k. noted T.row k.cell (Some k.value) };

    ghost also_shares = { λ k _ κ. said (noted T.row k.cell (Some k.value)) κ };
}

impl<T> Known<T> {
    /// Keeps what a note knows.
    pub fn of(note: &mut Note<T>) -> Known<T>
        requires { IsSome note.old.known }
        ensures { (note.new ≡ note.old) × (result.cell ≡ note.old.cell) × (note.old.known ≡ Some result.value) }
    {
        Known {
            marker: PhantomData,
        }
    }

    /// Tells a note of the same cell.
    pub fn tell(&self, note: &mut Note<T>)
        requires { note.old.cell ≡ self.now.cell }
        ensures { (note.new.cell ≡ note.old.cell) × (note.new.known ≡ Some self.now.value) }
    {}
}

impl<T> Drop for Known<T> {
    fn drop(self) {
        let Known { marker: _ } = self;
    }
}

unsafe impl<T> Send for Known<T> {}

unsafe impl<T> Sync for Known<T> {}
