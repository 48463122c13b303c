//! What workers share, none of which changes, and the answers of a slot.

ghost use Rattle.std.specs.Prelude.{◌≡◌};
ghost use Rattle.ask_query.specs.Slots.{AnswerNumbers, numbers_of};

use crate::slots::Slot;
use net_types::{Answer, Question};
use set_walk::Net;
use std::marker::{Brand, Model, PhantomData};

/// Questions on a network under a TTL, by slots.
#[derive(Clone, Copy)]
pub(crate) struct Asked<'a> {
    pub(crate) net: &'a Net<'a>,
    /// A set with the headers of all filters.
    pub(crate) domain: u32,
    /// For each list of ways a set with the headers that enter a loop, wherever a question asks of loops.
    pub(crate) bounds: &'a [u32],
    pub(crate) ttl: u8,
    pub(crate) questions: &'a [Question],
    pub(crate) slots: &'a [Slot],
}

/// What is asked of all workers.
///
/// What workers share is known by its type alone. So these are named by a type, which has no values.
pub(crate) trait Asking {
    ghost use Rattle.std.specs.Prelude.{ℕ, List};
    ghost use Rattle.net_types.specs.declared.question.Question.{Question};
    ghost use Rattle.net_types.specs.World.{World};
    ghost use Rattle.ask_query.specs.declared.slots.Slot.{Slot};

    ghost world: { World };

    ghost ttl: { ℕ };

    ghost questions: { List Question };

    ghost slots: { List Slot };
}

impl Asking for Brand {
    ghost use Rattle.std.specs.Prelude.{[]};

    ghost world = { record { network = record { devices = [] }; links = record { segments = []; ingress = [] } } };

    ghost ttl = { 0 };

    ghost questions = { [] };

    ghost slots = { [] };
}

/// The answers to the questions of a slot, in the slot's order.
#[derive(Drop)]
pub(crate) struct SlotAnswers<K: Asking> {
    slot: u32,
    answers: Vec<Answer>,
    asking: PhantomData<K>,
}

impl<K: Asking> Model for SlotAnswers<K> {
    ghost use Rattle.std.specs.Prelude.{ℕ};
    ghost use Rattle.ask_query.specs.Slots.{AnswerNumbers, numbers_of};

    // Contracts see the slot, and its type says that these are its answers.
    ghost Value = { ℕ };

    ghost view = { λ s. s.slot };

    ghost invariant = { λ s. AnswerNumbers K.world K.ttl K.questions (numbers_of K.slots s.slot) s.answers.items };
}

impl<K: Asking> SlotAnswers<K> {
    pub(crate) fn of(slot: u32, answers: Vec<Answer>) -> SlotAnswers<K>
        requires { AnswerNumbers K.world K.ttl K.questions (numbers_of K.slots slot) answers.items }
        ensures { result ≡ slot }
    {
        SlotAnswers {
            slot,
            answers,
            asking: PhantomData,
        }
    }

    pub(crate) fn slot(&self) -> u32
        ensures { result ≡ self.now }
    {
        self.slot
    }

    pub(crate) fn answers(&self) -> &[Answer]
        ensures { AnswerNumbers K.world K.ttl K.questions (numbers_of K.slots self.now) result.now }
    {
        self.answers.as_slice()
    }
}
