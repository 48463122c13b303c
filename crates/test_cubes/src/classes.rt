//! Classes of labels that threads make in one store, in their order and in the reverse.
//!
//! Each line is a case: of all classes that the threads have made, how many give their label back, how many are the same
//! as the class that the first thread has for it, and how many the same as its class for another label.
use crate::compared::{Case, Compared, compare_all};
use crate::interned::intern_twice;
use crate::labels;
use std::thread::Threads;
use test_stop::Stop;

/// The smallest store, stores in which windows overlap and labels stand alone, one that holds all, and the largest.
const CASES: [Case; 7] = [
    Case {
        cells: 32,
        labels: 1,
        threads: 2,
    },
    Case {
        cells: 32,
        labels: 33,
        threads: 2,
    },
    Case {
        cells: 33,
        labels: 100,
        threads: 4,
    },
    Case {
        cells: 32,
        labels: 1000,
        threads: 64,
    },
    Case {
        cells: 1000,
        labels: 1000,
        threads: 64,
    },
    Case {
        cells: 65536,
        labels: 1000,
        threads: 64,
    },
    Case {
        cells: 1048576,
        labels: 1,
        threads: 1,
    },
];

/// Prints what each case comes to.
pub(crate) fn show<R: Threads + Sync>(rt: &HostRuntime, threads: &R) -> Result<(), Stop> {
    let alloc = rt.alloc();
    let same = intern_twice(threads, alloc)?;
    println!(rt; "drop by two threads in 32 cells: same {same}")?;
    let equal = labels::copies_are_equal(alloc, 100)?;
    println!(rt; "copies of 100 labels: equal {equal}")?;
    for case in CASES {
        let found = compare_all(threads, alloc, case)?;
        let Case {
            cells,
            labels,
            threads,
        } = case;
        let Compared {
            read,
            same,
            confused,
        } = found;
        println!(rt;
            "cells {cells} labels {labels} threads {threads}: read {read} same {same} confused {confused}"
        )?;
    }
    Ok(())
}
