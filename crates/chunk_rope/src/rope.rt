//! The rope.
ghost use Rattle.std.specs.Prelude.{◌≡◌, ◌<◌, ◌≤◌, ◌-◌, ◌++◌, ◌∷◌, [], ◌↔◌, IsTrue, OnOk, OnErr, IfOk, MatchOption, None, Some};
ghost use Rattle.chunk_rope.specs.Linked.{held_by, link_of, HasRoom};

use crate::chunks::{Chunk, Chunks};
use crate::cursor::Cursor;
use no_memory::NoMemory;
use std::alloc::Global;
use std::collections::VecDeque;
use std::marker::Model;

/// A list to which another one is appended in constant time and without memory.
#[derive(Drop)]
pub struct Rope<T> {
    chunks: Chunks<T>,
    // The chunk behind the others, which takes what is pushed. It may be empty.
    tail: Option<Box<Chunk<T>>>,
    spare: usize,
}

impl<T> Model for Rope<T> {
    ghost use Rattle.chunk_rope.specs.Shown.{Shown};

    ghost Value = { Shown T };

    ghost use Rattle.std.specs.Prelude.{◌≡◌, ◌++◌, None};
    ghost use Rattle.chunk_rope.specs.Linked.{held_by, link_of, HasRoom};

    ghost view = { λ r. record { items = r.chunks ++ held_by r.tail; spare = r.spare } };

    ghost invariant = { λ r. (link_of r.tail ≡ None) × HasRoom r.tail r.spare };
}

impl<T: Drop> Rope<T> {
    /// An empty rope without spare. It takes no memory.
    pub fn new(alloc: Global) -> Rope<T>
        ensures items { result.items ≡ [] }
        ensures spare { result.spare ≡ 0 }
    {
        Rope {
            chunks: Chunks::new(alloc),
            tail: None,
            spare: 0,
        }
    }

    /// Whether the rope has no item. It takes no memory.
    pub fn is_empty(&self) -> bool
        ensures { IsTrue result ↔ (self.now.items ≡ []) }
    {
        self.chunks.is_empty() && is_bare(&self.tail)
    }

    /// Makes the spare at least `n`. Where there is no memory for it, the rope is as it was.
    pub fn reserve(&mut self, n: usize) -> Result<(), NoMemory>
        ensures room { OnOk result (n ≤ self.new.spare) }
        ensures more { self.old.spare ≤ self.new.spare }
        ensures items { self.new.items ≡ self.old.items }
        ensures unchanged { OnErr result (self.new ≡ self.old) }
    {
        if n <= self.spare {
            return Ok(());
        }
        let chunk = empty_chunk(self.chunks.allocator(), n)?;
        close(&mut self.chunks, self.tail.take());
        self.tail = Some(chunk);
        self.spare = n;
        Ok(())
    }

    /// Puts the value last, which lowers the spare by one. It takes no memory.
    pub fn push_reserved(&mut self, value: T)
        requires { 0 < self.old.spare }
        ensures items { self.new.items ≡ self.old.items ++ value ∷ [] }
        ensures spare { self.new.spare ≡ self.old.spare - 1 }
    {
        match &mut self.tail {
            None => unreachable!(),
            Some(chunk) => {
                chunk.items.push_back_reserved(value);
                self.spare -= 1;
            }
        }
    }

    /// Puts the items of the other rope behind these; the spare is then that of the other. It takes no memory, and as
    /// long for long ropes as for short ones.
    pub fn append(&mut self, other: Rope<T>)
        ensures items { self.new.items ≡ self.old.items ++ other.items }
        ensures spare { self.new.spare ≡ other.spare }
    {
        let Rope {
            chunks,
            tail,
            spare,
        } = other;
        close(&mut self.chunks, self.tail.take());
        self.chunks.append(chunks);
        self.tail = tail;
        self.spare = spare;
    }

    /// Takes the first item off the rope; `None` exactly where the rope is empty. The spare stays. It takes no memory.
    pub fn pop_front(&mut self) -> Option<T>
        ensures items { MatchOption result ((self.old.items ≡ []) × (self.new.items ≡ [])) (λ x. self.old.items ≡ x ∷ self.new.items) }
        ensures spare { self.new.spare ≡ self.old.spare }
    {
        match self.chunks.pop_front() {
            Some(item) => Some(item),
            None => match &mut self.tail {
                None => None,
                Some(chunk) => chunk.items.pop_front(),
            },
        }
    }

    /// The items by reference, in order. It takes no memory.
    pub fn cursor(&self) -> Cursor<'_, T>
        ensures { result ≡ self.now.items }
    {
        Cursor::over(&self.chunks, &self.tail)
    }
}

// Puts the tail, if there is one, behind the other chunks.
fn close<T: Drop>(chunks: &mut Chunks<T>, tail: Option<Box<Chunk<T>>>)
    requires { link_of tail ≡ None }
    ensures { chunks.new ≡ chunks.old ++ held_by tail }
{
    if let Some(chunk) = tail {
        chunks.push(chunk);
    }
}

// Whether the chunk, if there is one, has no item.
fn is_bare<T: Drop>(chunk: &Option<Box<Chunk<T>>>) -> bool
    ensures { IsTrue result ↔ (held_by chunk.now ≡ []) }
{
    match chunk {
        None => true,
        Some(chunk) => chunk.items.is_empty(),
    }
}

// An empty chunk with room for so many items.
fn empty_chunk<T: Drop>(alloc: Global, room: usize) -> Result<Box<Chunk<T>>, NoMemory>
    ensures { IfOk result (λ b. (b.value.items.items ≡ []) × (b.value.next ≡ None) × HasRoom (Some b) room) }
{
    let items = VecDeque::with_capacity(alloc, room)?;
    let chunk = Box::new(alloc, Chunk { items, next: None })?;
    Ok(chunk)
}
