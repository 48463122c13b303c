//! What comes out of ropes.
ghost use Rattle.std.specs.Prelude.{◌≡◌, ◌≤◌, IfOk, OnOk, length};

use chunk_rope::Rope;
use no_memory::NoMemory;
use std::alloc::Global;

// A rope of these items, and with so much spare.
pub(crate) fn filled(alloc: Global, items: &[u64], spare: usize) -> Result<Rope<u64>, NoMemory>
    ensures { IfOk result (λ r. spare ≤ r.spare) }
{
    let mut rope = Rope::new(alloc);
    rope.reserve(items.len())?;
    push_all(&mut rope, items);
    rope.reserve(spare)?;
    Ok(rope)
}

fn push_all(rope: &mut Rope<u64>, items: &[u64])
    requires { length items.now ≤ rope.old.spare }
{
    for item in items {
        rope.push_reserved(*item);
    }
}

// So many pops, one after the other, which leave the spare.
fn pops(alloc: Global, rope: &mut Rope<u64>, count: usize) -> Result<String, NoMemory>
    ensures { rope.new.spare ≡ rope.old.spare }
{
    let mut text = String::new(alloc);
    for _ in 0..count {
        text = match rope.pop_front() {
            Some(item) => format!(in alloc; "{text} {item}")?,
            None => format!(in alloc; "{text} none")?,
        };
    }
    Ok(text)
}

// Appends a rope of these items, and with so much spare.
fn append(alloc: Global, rope: &mut Rope<u64>, items: &[u64], spare: usize) -> Result<(), NoMemory>
    ensures { OnOk result (spare ≤ rope.new.spare) }
{
    rope.append(filled(alloc, items, spare)?);
    Ok(())
}

pub fn appended(alloc: Global) -> Result<String, NoMemory> {
    let mut rope = filled(alloc, &[1, 2], 0)?;
    append_and_pop(alloc, &mut rope)
}

fn append_and_pop(alloc: Global, rope: &mut Rope<u64>) -> Result<String, NoMemory> {
    append(alloc, rope, &[3], 0)?;
    pops(alloc, rope, 4)
}

pub fn with_new(alloc: Global) -> Result<String, NoMemory> {
    let mut rope = filled(alloc, &[1, 2], 5)?;
    rope.append(Rope::new(alloc));
    pops(alloc, &mut rope, 3)
}

pub fn reserved(alloc: Global) -> Result<String, NoMemory> {
    let mut rope = Rope::new(alloc);
    rope.reserve(3)?;
    rope.push_reserved(7);
    rope.push_reserved(8);
    rope.push_reserved(9);
    pops(alloc, &mut rope, 4)
}

pub fn spare_of_other(alloc: Global) -> Result<String, NoMemory> {
    let mut rope = filled(alloc, &[1], 0)?;
    append_and_push(alloc, &mut rope)
}

fn append_and_push(alloc: Global, rope: &mut Rope<u64>) -> Result<String, NoMemory> {
    append(alloc, rope, &[2], 0)?;
    append(alloc, rope, &[3], 2)?;
    rope.push_reserved(4);
    rope.push_reserved(5);
    pops(alloc, rope, 6)
}

pub fn popped_between(alloc: Global) -> Result<String, NoMemory> {
    let mut rope = filled(alloc, &[], 2)?;
    pop_between(alloc, &mut rope)
}

fn pop_between(alloc: Global, rope: &mut Rope<u64>) -> Result<String, NoMemory>
    requires { 2 ≤ rope.old.spare }
{
    rope.push_reserved(1);
    let first = pops(alloc, rope, 2)?;
    rope.push_reserved(2);
    let then = pops(alloc, rope, 2)?;
    Ok(format!(in alloc; "{first}{then}")?)
}

pub fn emptied(alloc: Global) -> Result<String, NoMemory> {
    let mut rope = Rope::new(alloc);
    let new = rope.is_empty();
    rope.append(filled(alloc, &[], 1)?);
    let roomy = rope.is_empty();
    rope.push_reserved(1);
    let full = rope.is_empty();
    let _item = rope.pop_front();
    let last = rope.is_empty();
    Ok(format!(in alloc; " {new} {roomy} {full} {last}")?)
}

pub fn walked(alloc: Global) -> Result<String, NoMemory> {
    let mut rope = filled(alloc, &[1, 2], 1)?;
    append_and_walk(alloc, &mut rope)
}

fn append_and_walk(alloc: Global, rope: &mut Rope<u64>) -> Result<String, NoMemory> {
    append(alloc, rope, &[3], 0)?;
    append(alloc, rope, &[4, 5], 1)?;
    let mut text = String::new(alloc);
    for item in rope.cursor() {
        text = format!(in alloc; "{text} {item}")?;
    }
    Ok(text)
}
