//! Chunks of items, each linked to the next one.
ghost use Rattle.std.specs.Prelude.{◌≡◌, ◌<◌, ◌++◌, ◌∷◌, [], ◌↔◌, IsTrue, MatchOption, length, None, Some};
ghost use Rattle.std.specs.VecDeque.{deque_len};
ghost use Rattle.chunk_rope.specs.Owned.{Place};
ghost use Rattle.chunk_rope.specs.Linked.{items_of, held_by, count_of, Leads, Linked, last_mark, link_of};

use crate::chain::{Chain, Loose, Mark, Trail};
use std::alloc::Global;
use std::collections::VecDeque;
use std::marker::Model;

/// Items in order, and the mark of the chunk behind.
#[derive(Drop)]
pub struct Chunk<T> {
    pub items: VecDeque<T>,
    pub next: Option<Mark>,
}

/// A queue of chunks, none of them empty. The first one is in a box, and the others are in the chain.
pub struct Chunks<T> {
    first: Option<Box<Chunk<T>>>,
    rest: Chain<Chunk<T>>,
    last: Option<Mark>,
    alloc: Global,
}

impl<T> Model for Chunks<T> {
    ghost use Rattle.std.specs.Prelude.{List, ◌++◌};

    ghost Value = { List T };

    ghost use Rattle.chunk_rope.specs.Linked.{items_of, held_by, Linked};

    ghost view = { λ c. held_by c.first ++ items_of c.rest.blocks };

    ghost invariant = { λ c. Linked c.first c.rest.blocks c.last };
}

/// The chunks of a queue by reference.
#[derive(Drop)]
pub struct Shown<'a, T> {
    pub first: &'a Option<Box<Chunk<T>>>,
    pub rest: Trail<'a, Chunk<T>>,
}

// The fields of a queue.
struct Parts<T> {
    first: Option<Box<Chunk<T>>>,
    rest: Chain<Chunk<T>>,
    last: Option<Mark>,
}

impl<T: Drop> Chunks<T> {
    /// A queue of no chunk. It takes no memory.
    pub fn new(alloc: Global) -> Chunks<T>
        ensures { result ≡ [] }
    {
        Chunks {
            first: None,
            rest: Chain::none(),
            last: None,
            alloc,
        }
    }

    // The queue taken apart.
    fn into_parts(self) -> Parts<T>
        ensures linked { Linked result.first result.rest.blocks result.last }
        ensures items { self ≡ held_by result.first ++ items_of result.rest.blocks }
    {
        let Chunks {
            first,
            rest,
            last,
            alloc: _,
        } = self;
        Parts { first, rest, last }
    }

    /// The allocator that the queue keeps.
    pub fn allocator(&self) -> Global {
        self.alloc
    }

    /// The first chunk, and the others as a trail to which it leads.
    pub fn shown(&self) -> Shown<'_, T>
        ensures linked { Leads (link_of result.first.now) result.rest.blocks None }
        ensures items { held_by result.first.now ++ items_of result.rest.blocks ≡ self.now }
    {
        Shown {
            first: &self.first,
            rest: self.rest.trail(),
        }
    }

    /// Whether there is no item.
    pub fn is_empty(&self) -> bool
        ensures { IsTrue result ↔ (self.now ≡ []) }
    {
        self.first.is_none()
    }

    /// Puts a chunk that leads nowhere behind the others.
    pub fn push(&mut self, chunk: Box<Chunk<T>>)
        requires { chunk.value.next ≡ None }
        ensures { self.new ≡ self.old ++ chunk.value.items.items }
    {
        if chunk.items.is_empty() {
            return;
        }
        self.append(Chunks {
            first: Some(chunk),
            rest: Chain::none(),
            last: None,
            alloc: self.alloc,
        });
    }

    /// Puts the chunks of the other behind these, in constant time.
    pub fn append(&mut self, other: Chunks<T>)
        ensures { self.new ≡ self.old ++ other }
    {
        let Parts { first, rest, last } = other.into_parts();
        match first {
            None => {}
            Some(chunk) => match &mut self.first {
                None => {
                    self.first = Some(chunk);
                    self.rest = rest;
                    self.last = last;
                }
                Some(own) => {
                    let (block, mark) = Chain::alone(Loose::of(chunk));
                    lead_to(own, &mut self.rest, self.last, self.alloc, mark);
                    self.rest.join(block);
                    self.rest.join(rest);
                    self.last = last.or(Some(mark));
                }
            },
        }
    }

    /// Takes the first item; `None` exactly where there is none.
    pub fn pop_front(&mut self) -> Option<T>
        ensures { MatchOption result ((self.old ≡ []) × (self.new ≡ [])) (λ x. self.old ≡ x ∷ self.new) }
    {
        match &mut self.first {
            None => None,
            Some(chunk) => {
                let item = chunk.items.pop_front();
                if chunk.items.is_empty() {
                    let next = chunk.next;
                    self.first = next_chunk(&mut self.rest, &mut self.last, self.alloc, next);
                }
                item
            }
        }
    }
}

// The chunk at the link goes out of the chain.
fn next_chunk<T: Drop>(
    rest: &mut Chain<Chunk<T>>,
    last: &mut Option<Mark>,
    alloc: Global,
    link: Option<Mark>,
) -> Option<Box<Chunk<T>>>
    requires leads { Leads link rest.old.blocks None }
    requires last { last.old ≡ last_mark rest.old.blocks }
    ensures linked { Linked result rest.new.blocks last.new }
    ensures count { count_of result rest.new.blocks ≡ length rest.old.blocks }
    ensures items { items_of rest.old.blocks ≡ held_by result ++ items_of rest.new.blocks }
{
    match link {
        None => None,
        Some(mark) => {
            let chunk = rest.take_first(alloc, mark).into_box();
            if chunk.next.is_none() {
                *last = None;
            }
            Some(chunk)
        }
    }
}

// The last chunk leads to the mark.
fn lead_to<T: Drop>(
    own: &mut Chunk<T>,
    rest: &mut Chain<Chunk<T>>,
    last: Option<Mark>,
    alloc: Global,
    mark: Mark,
)
    requires leads { Leads own.old.next rest.old.blocks None }
    requires last { last ≡ last_mark rest.old.blocks }
    ensures own { own.new.items ≡ own.old.items }
    ensures leads { Leads own.new.next rest.new.blocks (Some mark) }
    ensures items { items_of rest.new.blocks ≡ items_of rest.old.blocks }
{
    match last {
        None => own.next = Some(mark),
        Some(at) => {
            let blank = Chunk {
                items: VecDeque::new(alloc),
                next: None,
            };
            let mut chunk = rest.replace_last(at, blank);
            chunk.next = Some(mark);
            let _blank = rest.replace_last(at, chunk);
        }
    }
}

impl<T: Drop> Drop for Chunks<T> {
    fn drop(self) {
        let Chunks {
            first,
            mut rest,
            mut last,
            alloc,
        } = self;
        let mut chunk = first;
        while let Some(done) = chunk {
            chunk = next_chunk(&mut rest, &mut last, alloc, done.next);
        }
    }
}
