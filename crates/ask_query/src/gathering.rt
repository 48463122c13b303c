//! From the answers of slots to those of all questions.

ghost use Rattle.std.specs.Prelude.{◌≡◌, ◌<◌, ℕ, List, All, Contains, IfOk, length, map};
ghost use Rattle.net_types.specs.declared.question.Question.{Question};
ghost use Rattle.net_types.specs.Questions.{AreAnswers};
ghost use Rattle.net_types.specs.World.{World};
ghost use Rattle.net_view.specs.Borrowed.{world_of};
ghost use Rattle.ask_query.specs.Slots.{AnswerNumbers, AreBelow, AreRight, HaveSlots, IsKnown, numbers_of};
ghost use Rattle.ask_query.specs.Shared.{IsNamed};

use crate::shared::{Asked, Asking, SlotAnswers};
use crate::slots::{Slot, numbers_in};
use chunk_rope::Rope;
use net_types::{Answer, NoMemory, Question};
use std::alloc::Global;
use task_board::Leaf;

/// The answers that the leaves hold, in the order of the questions. Each slot has a leaf.
pub(crate) fn answers_of_leaves<K: Asking>(
    alloc: Global,
    asked: &Asked,
    leaves: &Rope<Leaf<SlotAnswers<K>>>,
) -> Result<Vec<Answer>, NoMemory>
    requires named { IsNamed K.world K.ttl K.questions K.slots asked.now }
    requires below { AreBelow (length asked.now.questions.now) asked.now.slots.now }
    requires each { HaveSlots (length asked.now.questions.now) asked.now.slots.now }
    requires leaves { (k : ℕ) → k < length asked.now.slots.now → Contains (map (λ l. l.value) leaves.now.items) k }
    ensures { IfOk result (λ answers. AreAnswers (world_of asked.now.net.now.world) asked.now.ttl asked.now.questions.now answers.items) }
{
    let mut known = vec![in alloc; None; asked.questions.len()]?;
    for leaf in leaves.cursor() {
        put_slot(&mut known, asked.slots, &leaf.value);
    }
    in_order(alloc, asked.questions, &known)
}

// The answers of a slot are put to their questions.
fn put_slot<K: Asking>(known: &mut Vec<Option<Answer>>, slots: &[Slot], given: &SlotAnswers<K>)
    requires slots { K.slots ≡ slots.now }
    requires below { AreBelow (length known.old.items) slots.now }
    ensures count { length known.new.items ≡ length known.old.items }
    ensures right { AreRight K.world K.ttl K.questions known.old.items → AreRight K.world K.ttl K.questions known.new.items }
    ensures kept { (n : ℕ) → IsKnown known.old.items n → IsKnown known.new.items n }
    ensures put { All (IsKnown known.new.items) (numbers_of slots.now given.now) }
{
    put_all(known, numbers_in(slots, given.slot()), given.answers());
}

// Each answer is put to the question of its number.
fn put_all(known: &mut Vec<Option<Answer>>, numbers: &[usize], answers: &[Answer])
    requires count { length numbers.now ≡ length answers.now }
    requires below { All (λ n. n < length known.old.items) numbers.now }
    ensures count { length known.new.items ≡ length known.old.items }
    ensures right { (w : World) (t : ℕ) (questions : List Question) → AnswerNumbers w t questions numbers.now answers.now → AreRight w t questions known.old.items → AreRight w t questions known.new.items }
    ensures kept { (n : ℕ) → IsKnown known.old.items n → IsKnown known.new.items n }
    ensures put { All (IsKnown known.new.items) numbers.now }
{
    for i in 0..numbers.len() {
        known[numbers[i]] = Some(answers[i]);
    }
}

// The answers, where each question has one.
fn in_order(
    alloc: Global,
    questions: &[Question],
    known: &[Option<Answer>],
) -> Result<Vec<Answer>, NoMemory>
    requires count { length known.now ≡ length questions.now }
    requires known { (n : ℕ) → n < length questions.now → IsKnown known.now n }
    ensures { IfOk result (λ answers. (w : World) (t : ℕ) → AreRight w t questions.now known.now → AreAnswers w t questions.now answers.items) }
{
    let mut answers = Vec::with_capacity(alloc, questions.len())?;
    for i in 0..questions.len() {
        let found = known[i];
        let Some(answer) = found else {
            unreachable!();
        };
        answers.push(answer)?;
    }
    Ok(answers)
}
