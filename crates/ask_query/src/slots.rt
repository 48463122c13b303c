//! Questions divided among slots, each of which is answered by one worker.

ghost use Rattle.std.specs.Prelude.{◌≡◌, ◌<◌, ◌≤◌, ◌^◌, ℕ, All, IfOk, OnOk, length};
ghost use Rattle.ask_query.specs.Slots.{AreBelow, HaveSlots, IsInSlot, numbers_of};

use indexmap::IndexMap;
use net_types::{NoMemory, Place, Question, QuestionKind};
use std::alloc::Global;

/// The questions of a slot, by their numbers.
#[derive(Drop)]
pub struct Slot {
    pub numbers: Vec<usize>,
}

/// There are 65,536 slots at most; what comes later goes to the last one.
const LAST_SLOT: usize = 65_535;

/// The questions by slots. Those that ask where headers from one place end have one slot, since they share the walks from there;
/// each noloop, which shares none, has its own.
pub(crate) fn slots_of(alloc: Global, questions: &[Question]) -> Result<Vec<Slot>, NoMemory>
    ensures few { IfOk result (λ slots. length slots.items < 2 ^ 32) }
    ensures below { IfOk result (λ slots. AreBelow (length questions.now) slots.items) }
    ensures each { IfOk result (λ slots. HaveSlots (length questions.now) slots.items) }
{
    let mut slots = Vec::new(alloc);
    let mut places = IndexMap::new(alloc);
    for number in 0..questions.len() {
        let slot = slot_of(&mut places, &questions[number], slots.len())?;
        add_number(alloc, &mut slots, slot.min(LAST_SLOT), number)?;
    }
    Ok(slots)
}

// The slot of the question, which is the next one where it has none yet.
fn slot_of(
    places: &mut IndexMap<Place, usize>,
    question: &Question,
    next: usize,
) -> Result<usize, NoMemory> {
    if question.kind == QuestionKind::NoLoop {
        return Ok(next);
    }
    if let Some(slot) = places.get(&question.from) {
        return Ok(*slot);
    }
    places.insert(question.from, next)?;
    Ok(next)
}

// The number is put into the slot, or into a new one behind the others where that slot isn't there.
fn add_number(
    alloc: Global,
    slots: &mut Vec<Slot>,
    slot: usize,
    number: usize,
) -> Result<(), NoMemory>
    requires slot { slot < 65536 }
    requires few { length slots.old.items ≤ 65536 }
    ensures few { OnOk result (length slots.new.items ≤ 65536) }
    ensures below { OnOk result ((count : ℕ) → AreBelow count slots.old.items → number < count → AreBelow count slots.new.items) }
    ensures kept { OnOk result ((n : ℕ) → IsInSlot slots.old.items n → IsInSlot slots.new.items n) }
    ensures added { OnOk result (IsInSlot slots.new.items number) }
{
    if slot < slots.len() {
        slots[slot].numbers.push(number)?;
        return Ok(());
    }
    let mut numbers = Vec::new(alloc);
    numbers.push(number)?;
    slots.push(Slot { numbers })?;
    Ok(())
}

/// The numbers of the questions of a slot; none where there is no such slot.
pub(crate) fn numbers_in(slots: &[Slot], slot: u32) -> &[usize]
    ensures { result.now ≡ numbers_of slots.now slot }
{
    match slots.get(slot as usize) {
        None => &[],
        Some(slot) => slot.numbers.as_slice(),
    }
}
