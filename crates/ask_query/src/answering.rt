//! Work on a slot.

ghost use Rattle.std.specs.Prelude.{◌≡◌, IfOk, IfSome};
ghost use Rattle.cube_diagram.specs.Functions.{Keeps};
ghost use Rattle.ask_query.specs.Shared.{IsAsked, IsNamed};

use crate::answers::answers_within;
use crate::shared::{Asked, Asking, SlotAnswers};
use crate::slots::numbers_in;
use cube_alg::Region;
use cube_diagram::Diagrams;
use net_types::NoMemory;
use std::alloc::Global;
use std::marker::{Model, PhantomData};
use std::sync::Wait;
use steal_pool::{Splitter, Worked};
use table_twins::{Base, Twins};
use task_board::Meaning;

/// What answers the questions of a slot: what is asked, and the tables in which workers walk.
#[derive(Drop)]
pub(crate) struct Answering<'a, R, K: Asking + Base> {
    rt: &'a R,
    base: Option<&'a Diagrams>,
    twins: &'a Twins<K>,
    asked: &'a Asked<'a>,
}

impl<'a, R, K: Asking + Base> Model for Answering<'a, R, K> {
    ghost use Rattle.std.specs.Prelude.{◌≡◌, IfSome, List};
    ghost use Rattle.net_types.specs.declared.question.Question.{Question};
    ghost use Rattle.ask_query.specs.Shared.{IsAsked, IsNamed};

    // Contracts see the questions.
    ghost Value = { List Question };

    ghost view = { λ s. s.asked.now.questions.now };

    ghost invariant = { λ s. IsAsked K.base s.asked.now
        × IfSome s.base (λ b. K.base ≡ b.now)
        × IsNamed K.world K.ttl K.questions K.slots s.asked.now };
}

impl<'a, R, K: Asking + Base> Answering<'a, R, K> {
    pub(crate) fn of(
        rt: &'a R,
        base: Option<&'a Diagrams>,
        twins: &'a Twins<K>,
        asked: &'a Asked<'a>,
    ) -> Answering<'a, R, K>
        requires asked { IsAsked K.base asked.now }
        requires base { IfSome base (λ b. K.base ≡ b.now) }
        requires named { IsNamed K.world K.ttl K.questions K.slots asked.now }
    {
        Answering {
            rt,
            base,
            twins,
            asked,
        }
    }
}

impl<'a, R: Wait, K: Asking + Base> Answering<'a, R, K> {
    // The answers of a slot. The table goes back also where there was no memory for them, so that another worker finds it.
    fn answers_in(&self, alloc: Global, slot: u32) -> Result<SlotAnswers<K>, NoMemory>
        ensures { IfOk result (λ answers. answers ≡ slot) }
    {
        let mut table = self.twins.take(self.rt, self.base)?;
        let found = self.walked_in(alloc, &mut table, slot);
        self.twins.give_back(self.rt, table);
        found
    }

    // The answers of a slot, by walks in this table.
    fn walked_in(
        &self,
        alloc: Global,
        table: &mut Diagrams,
        slot: u32,
    ) -> Result<SlotAnswers<K>, NoMemory>
        requires { Keeps K.base table.old }
        ensures slot { IfOk result (λ answers. answers ≡ slot) }
        ensures kept { Keeps table.old table.new }
    {
        let numbers = numbers_in(self.asked.slots, slot);
        let answers = answers_within(alloc, table, self.asked, numbers)?;
        Ok(SlotAnswers::of(slot, answers))
    }
}

/// Answers the questions of each slot. A header has in each slot the slot's answers as its value, whichever header it is: so a
/// region is never divided, and a slot is one leaf.
///
/// Its meaning is named by its type, so any two are equal.
#[derive_where(Clone, Copy, PartialEq, Eq)]
pub(crate) struct BySlots<'a, R, K: Asking + Base> {
    #[derive_where(skip)]
    pub(crate) source: &'a Answering<'a, R, K>,
    pub(crate) asking: PhantomData<K>,
}

impl<'a, R, K: Asking + Base + Send + Sync> Meaning for BySlots<'a, R, K> {
    ghost use Rattle.std.specs.Prelude.{Some, refl};

    type Value = SlotAnswers<K>;

    ghost gives = { λ _ slot _. Some slot };

    ghost same = { λ a b e slot h. refl };
}

impl<'a, R: Wait, K: Asking + Base + Send + Sync> Splitter for BySlots<'a, R, K> {
    fn work(&self, alloc: Global, region: &Region) -> Result<Worked<SlotAnswers<K>>, NoMemory> {
        let value = self.source.answers_in(alloc, region.slot)?;
        Ok(Worked::Whole { value })
    }
}
