//! Blocks of memory that are owned together, and the marks by which they are reached.
//!
//! All raw pointers of the crate are in the functions of this file. A chain knows in its ghost field which blocks it
//! owns, in order, and each function says what it does to that list, so that all other code is safe code: it keeps
//! marks, and shows that a mark is that of the first or of the last block.
ghost use Rattle.std.specs.Prelude.{◌≡◌, List, [], ◌∷◌, ◌++◌};
ghost use Rattle.std_alloc.specs.Box.Ownership.{box_owns};
ghost use Rattle.chunk_rope.specs.Owned.{Place, chain_owns, chain_lent, IsFirst, IsLast, Begins, Ends};

use std::alloc::{Allocator, Global};
use std::marker::{Model, PhantomData};

/// The owner of the blocks' memory, in order. It takes no space, and frees nothing when it is dropped.
#[derive(Drop)]
pub struct Chain<T> {
    mark: PhantomData<T>,
    pub ghost blocks: { List (Place × T) },
}

impl<T> Model for Chain<T> {
    ghost also_owns = { λ c. chain_owns T.row c.blocks };

    ghost also_shares = { λ c _ κ. chain_lent T.row c.blocks κ };
}

/// Where a block lies. It owns nothing.
#[derive(Clone, Copy)]
pub struct Mark {
    pub(crate) ptr: *mut u8,
}

unsafe impl Send for Mark {}

unsafe impl Sync for Mark {}

/// A block that is in no chain.
pub struct Loose<T, A: Allocator> {
    pub(crate) at: *mut T,
    pub(crate) alloc: A,
    pub ghost value: { T },
}

impl<T, A: Allocator> Model for Loose<T, A> {
    ghost also_owns = { λ l. box_owns (A.dealloc_token l.alloc) T.row l.at l.value };
}

impl<T, A: Allocator> Loose<T, A> {
    /// The block of a box.
    pub fn of(block: Box<T, A>) -> Loose<T, A>
    where
        T: Drop,
        ensures { result.value ≡ block.value }
    {
        let (at, alloc) = Box::into_raw_with_allocator(block);
        Loose { at, alloc }
    }

    /// The block as a box.
    pub fn into_box(self) -> Box<T, A>
        ensures { result.value ≡ self.value }
    {
        let Loose { at, alloc } = self;
        unsafe { Box::from_raw(alloc, at) }
    }
}

/// What a `&` to a chain has still to show. It takes no space.
#[derive(Drop)]
pub struct Trail<'a, T> {
    mark: PhantomData<&'a T>,
    pub ghost blocks: { List (Place × T) },
}

impl<'a, T> Model for Trail<'a, T> {
    ghost also_owns = { λ t. chain_lent T.row t.blocks 'a };
}

impl<T> Chain<T> {
    /// A chain of no block.
    pub fn none() -> Chain<T>
        ensures { result.blocks ≡ [] }
    {
        Chain { mark: PhantomData }
    }

    /// The chain of this block, and its mark.
    pub fn alone(block: Loose<T, Global>) -> (Chain<T>, Mark)
        ensures { (result.1.ptr ≡ block.at) × (result.0.blocks ≡ ((block.at, block.alloc), block.value) ∷ []) }
    {
        let Loose { at, alloc: _ } = block;
        (Chain { mark: PhantomData }, Mark { ptr: at as *mut u8 })
    }

    /// Takes in the blocks of the other, behind its own.
    pub fn join(&mut self, other: Chain<T>)
        ensures { self.new.blocks ≡ self.old.blocks ++ other.blocks }
    {
        let Chain { mark: _ } = other;
    }

    /// Takes the first block out.
    pub fn take_first(&mut self, alloc: Global, first: Mark) -> Loose<T, Global>
        requires { IsFirst self.old.blocks first.ptr }
        ensures { Begins T self.old.blocks first.ptr result.value self.new.blocks }
    {
        let at = first.ptr as *mut T;
        Loose { at, alloc }
    }

    /// Puts a value into the last block, and gives the one that it held.
    pub fn replace_last(&mut self, last: Mark, value: T) -> T
        requires { IsLast self.old.blocks last.ptr }
        ensures { Ends T self.old.blocks self.new.blocks last.ptr result value }
    {
        let at = last.ptr as *mut T;
        unsafe {
            let held = at.read();
            at.write(value);
            held
        }
    }

    /// What a `&` to the chain shows.
    pub fn trail(&self) -> Trail<'_, T>
        ensures { result.blocks ≡ self.now.blocks }
    {
        Trail { mark: PhantomData }
    }
}

impl<'a, T> Trail<'a, T> {
    /// The value of the first block, which is then passed.
    pub fn step(&mut self, first: Mark) -> &'a T
        requires { IsFirst self.old.blocks first.ptr }
        ensures { Begins T self.old.blocks first.ptr result.now self.new.blocks }
    {
        let at = first.ptr as *mut T;
        unsafe { &*at }
    }
}

unsafe impl<T: Send> Send for Chain<T> {}

unsafe impl<T: Sync> Sync for Chain<T> {}
