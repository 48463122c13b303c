//! Tables with the same functions, in which workers walk.

ghost use Rattle.std.specs.Prelude.{◌≡◌, IfOk, IfSome};
ghost use Rattle.cube_diagram.specs.Functions.{Keeps};

use cube_diagram::Diagrams;
use no_memory::NoMemory;
use std::alloc::Global;
use std::marker::{Brand, Model, PhantomData};
use std::sync::{Mutex, Wait};

/// The table that all workers read, named by a type, which has no values: what a shared list of twins has is known by its type
/// alone.
pub trait Base {
    ghost use Rattle.cube_diagram.specs.Functions.{Functions};

    ghost base: { Functions };
}

impl Base for Brand {
    ghost use Rattle.std.specs.Prelude.{[]};

    ghost base = { [] };
}

/// A table in which each number of the base stands for the same function.
#[derive(Drop)]
struct Twin<B: Base> {
    table: Diagrams,
    base: PhantomData<B>,
}

impl<B: Base> Model for Twin<B> {
    ghost use Rattle.cube_diagram.specs.Functions.{Functions, Keeps};

    ghost Value = { Functions };

    ghost view = { λ t. t.table };

    ghost invariant = { λ t. Keeps B.base t.table };
}

impl<B: Base> Twin<B> {
    fn of(table: Diagrams) -> Twin<B>
        requires { Keeps B.base table }
    {
        Twin {
            table,
            base: PhantomData,
        }
    }

    fn into_table(self) -> Diagrams
        ensures { Keeps B.base result }
    {
        let Twin { table, base: _ } = self;
        table
    }
}

/// Twins of the base in which no worker walks.
///
/// What walks of one worker have found is often found again by those of the next one. So a worker takes a twin that is there,
/// before it makes one, and gives it back when it is done.
#[derive(Drop)]
pub struct Twins<B: Base> {
    spare: Mutex<Vec<Twin<B>>>,
}

impl<B: Base> Twins<B> {
    /// No twins yet.
    pub fn new(alloc: Global) -> Twins<B> {
        Twins {
            spare: Mutex::new(Vec::new(alloc)),
        }
    }

    /// One table, for a worker that is alone: it may be the base itself.
    ///
    /// It answers `NoMemory` only where there was none.
    pub fn of(alloc: Global, table: Diagrams) -> Result<Twins<B>, NoMemory>
        requires { Keeps B.base table }
    {
        let mut spare = Vec::new(alloc);
        spare.push(Twin::of(table))?;
        Ok(Twins {
            spare: Mutex::new(spare),
        })
    }

    /// A table with the functions of the base: one that is there, else a copy of the base. Without a base there is no memory
    /// for more than are there.
    pub fn take<R: Wait>(&self, rt: &R, base: Option<&Diagrams>) -> Result<Diagrams, NoMemory>
        requires { IfSome base (λ b. B.base ≡ b.now) }
        ensures { IfOk result (Keeps B.base) }
    {
        match self.found(rt) {
            Some(twin) => Ok(twin.into_table()),
            None => {
                let table = base.ok_or(NoMemory)?.twin()?;
                Ok(table)
            }
        }
    }

    fn found<R: Wait>(&self, rt: &R) -> Option<Twin<B>> {
        self.spare.lock(rt).pop()
    }

    /// Takes a table back. Without memory it is given up.
    pub fn give_back<R: Wait>(&self, rt: &R, table: Diagrams)
        requires { Keeps B.base table }
    {
        let _ = self.spare.lock(rt).push(Twin::of(table));
    }
}
