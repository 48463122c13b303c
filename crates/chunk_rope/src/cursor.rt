//! The items of a rope by reference.
ghost use Rattle.std.specs.Prelude.{◌≡◌, ◌++◌, ◌∷◌, [], MatchOption};
ghost use Rattle.std.specs.Iterator.{YieldsFirstRef, item_count};
ghost use Rattle.chunk_rope.specs.Linked.{held_by, link_of};
ghost use Rattle.chunk_rope.specs.Walked.{left_in};

use crate::chain::{Mark, Trail};
use crate::chunks::{Chunk, Chunks, Shown};
use std::collections::vec_deque::Iter;
use std::marker::Model;

/// An iterator by reference over the items of a rope, in order.
#[derive(Drop)]
pub struct Cursor<'a, T> {
    items: Option<Iter<'a, T>>,
    next: Option<Mark>,
    trail: Trail<'a, Chunk<T>>,
    tail: Option<Iter<'a, T>>,
}

impl<'a, T> Model for Cursor<'a, T> {
    ghost use Rattle.std.specs.Prelude.{List, ◌++◌, None};

    ghost Value = { List T };

    ghost use Rattle.chunk_rope.specs.Linked.{items_of, Leads};
    ghost use Rattle.chunk_rope.specs.Walked.{left_in};

    ghost view = { λ c. left_in c.items ++ (items_of c.trail.blocks ++ left_in c.tail) };

    ghost invariant = { λ c. Leads c.next c.trail.blocks None };
}

impl<'a, T: Drop> Cursor<'a, T> {
    // Over these chunks, and then the tail.
    pub(crate) fn over(chunks: &'a Chunks<T>, tail: &'a Option<Box<Chunk<T>>>) -> Cursor<'a, T>
        ensures { result ≡ chunks.now ++ held_by tail.now }
    {
        let Shown { first, rest } = chunks.shown();
        Cursor {
            items: items_in(first),
            next: link_in(first),
            trail: rest,
            tail: items_in(tail),
        }
    }
}

// Where the chunk leads, if there is one.
fn link_in<T: Drop>(chunk: &Option<Box<Chunk<T>>>) -> Option<Mark>
    ensures { result ≡ link_of chunk.now }
{
    match chunk {
        None => None,
        Some(chunk) => chunk.next,
    }
}

// The items in the chunk, if there is one.
fn items_in<T: Drop>(chunk: &Option<Box<Chunk<T>>>) -> Option<Iter<'_, T>>
    ensures { left_in result ≡ held_by chunk.now }
{
    match chunk {
        None => None,
        Some(chunk) => Some(chunk.items.iter()),
    }
}

// The next item in the chunk, if there is one.
fn next_in<'a, T: Drop>(items: &mut Option<Iter<'a, T>>) -> Option<&'a T>
    ensures { MatchOption result ((left_in items.old ≡ []) × (left_in items.new ≡ [])) (λ x. left_in items.old ≡ x.now ∷ left_in items.new) }
{
    match items {
        None => None,
        Some(items) => items.next(),
    }
}

impl<'a, T: Drop> Iterator for Cursor<'a, T> {
    type Item = &'a T;

    ghost next_gives = { YieldsFirstRef (λ s. s) };

    ghost remaining = { item_count (λ s. s) };

    fn next(&mut self) -> Option<&'a T> {
        if let Some(item) = next_in(&mut self.items) {
            return Some(item);
        }
        let Some(mark) = self.next else {
            return next_in(&mut self.tail);
        };
        let chunk = self.trail.step(mark);
        self.next = chunk.next;
        self.items = Some(chunk.items.iter());
        next_in(&mut self.items)
    }
}
