//! Ropes go to threads, which share another one.

use crate::ropes::filled;
use chunk_rope::Rope;
use no_memory::NoMemory;
use std::alloc::Global;
use std::thread;
use std::thread::Threads;

fn sum(rope: &Rope<u64>) -> u64 {
    let mut total: u64 = 0;
    for item in rope.cursor() {
        total = total.wrapping_add(*item);
    }
    total
}

pub fn summed<R: Threads + Sync>(rt: &R, alloc: Global) -> Result<String, NoMemory> {
    let shared = filled(alloc, &[100], 0)?;
    let mut jobs = Vec::new(alloc);
    jobs.push(filled(alloc, &[1, 2], 0)?)?;
    jobs.push(filled(alloc, &[3, 4, 5], 0)?)?;
    let sums = thread::map_vec(
        rt,
        jobs,
        &|rope: Rope<u64>| { sum(&rope).wrapping_add(sum(&shared)) },
    )?;
    let mut text = String::new(alloc);
    for total in &sums {
        text = format!(in alloc; "{text} {total}")?;
    }
    Ok(text)
}
