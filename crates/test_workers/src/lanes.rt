//! Lanes of few tasks.

use cube_alg::Region;
use hdr_bits::Cube;
use no_memory::NoMemory;
use std::alloc::Global;
use std::sync::Wait;
use steal_pool::{Task, Thief, lane};

fn region(slot: u32) -> Region {
    Region {
        slot,
        cube: Cube::all(),
    }
}

/// A lane of capacity 2 takes two tasks and hands the third back.
pub fn pushed(alloc: Global) -> Result<String, NoMemory> {
    let [first, second, third] = pushes(alloc)?;
    let text = format!(in alloc; "{} {} {}", place(&first), place(&second), slot(&third))?;
    Ok(text)
}

fn pushes(alloc: Global) -> Result<[Result<u64, Region>; 3], NoMemory> {
    let (mut owner, _thief) = lane(alloc, 2)?;
    let first = owner.push(10, region(0));
    let second = owner.push(11, region(1));
    let third = owner.push(12, region(2));
    Ok([first, second, third])
}

/// A second thief steals the first task, and the owner takes the other one.
pub fn stolen<R: Wait>(rt: &R, alloc: Global) -> Result<String, NoMemory> {
    let tasks = steal_and_take(rt, alloc)?;
    names(alloc, &tasks)
}

fn steal_and_take<R: Wait>(rt: &R, alloc: Global) -> Result<[Option<Task>; 3], NoMemory> {
    let (mut owner, mut thief) = lane(alloc, 2)?;
    let _ = owner.push(10, region(0));
    let _ = owner.push(11, region(1));
    let mut second = thief.split()?;
    let stolen = second.steal(rt);
    let taken = owner.take();
    let none = owner.take();
    owner.join(second);
    owner.join(thief);
    Ok([stolen, taken, none])
}

/// Nobody finds a task in a lane without one.
pub fn empty<R: Wait>(rt: &R, alloc: Global) -> Result<String, NoMemory> {
    let tasks = take_and_steal(rt, alloc)?;
    names(alloc, &tasks)
}

fn take_and_steal<R: Wait>(rt: &R, alloc: Global) -> Result<[Option<Task>; 2], NoMemory> {
    let (mut owner, mut thief) = lane(alloc, 1)?;
    let taken = owner.take();
    let stolen = thief.steal(rt);
    Ok([taken, stolen])
}

/// Each thief of a lane is split as long as it can be.
pub fn split_all(alloc: Global) -> Result<String, NoMemory> {
    let count = count_split(alloc)?;
    let text = format!(in alloc; "{count}")?;
    Ok(text)
}

fn count_split(alloc: Global) -> Result<usize, NoMemory> {
    let (_owner, first) = lane(alloc, 1)?;
    count_split_from(alloc, first)
}

fn count_split_from(alloc: Global, first: Thief) -> Result<usize, NoMemory> {
    let mut thieves = Vec::new(alloc);
    thieves.push(first)?;
    for _ in 0..8 {
        thieves = split_each(alloc, thieves)?;
    }
    Ok(thieves.len())
}

// Each thief, and what is split off from it.
fn split_each(alloc: Global, thieves: Vec<Thief>) -> Result<Vec<Thief>, NoMemory> {
    let mut all = Vec::new(alloc);
    for thief in thieves {
        add_split(&mut all, thief)?;
    }
    Ok(all)
}

fn add_split(all: &mut Vec<Thief>, thief: Thief) -> Result<(), NoMemory> {
    let mut thief = thief;
    if let Ok(second) = thief.split() {
        all.push(second)?;
    }
    all.push(thief)?;
    Ok(())
}

// The place of a task that was pushed, or -1.
fn place(pushed: &Result<u64, Region>) -> i128 {
    match pushed {
        Ok(place) => i128::from(*place),
        Err(_) => -1,
    }
}

// The slot of a region that was handed back, or -1.
fn slot(pushed: &Result<u64, Region>) -> i128 {
    match pushed {
        Ok(_) => -1,
        Err(region) => i128::from(region.slot),
    }
}

fn names(alloc: Global, tasks: &[Option<Task>]) -> Result<String, NoMemory> {
    let mut text = String::new(alloc);
    for task in tasks {
        if !text.is_empty() {
            text.push_str(", ")?;
        }
        let name = named(alloc, *task)?;
        text.push_str(name.as_str())?;
    }
    Ok(text)
}

fn named(alloc: Global, task: Option<Task>) -> Result<String, NoMemory> {
    let text = match task {
        Some(task) => format!(in alloc;
            "place {} ticket {} slot {}",
            task.place, task.ticket, task.region.slot
        )?,
        None => format!(in alloc; "none")?,
    };
    Ok(text)
}
