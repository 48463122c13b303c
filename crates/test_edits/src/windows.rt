//! A change window by one worker and by four: the link of the first router is shut, and opened again.

use crate::networks::{Linked, Plan, device, network_of};
use crate::texts::{AT_EACH_OTHER, SHUT};
use hdr_bits::Cube;
use net_types::{NetDevice, NoMemory, Place, Question, QuestionKind};
use rollout::{Rollout, RolloutAnswer, check_rollout};
use std::alloc::Global;
use std::io;
use std::sync::Wait;
use std::thread::Threads;
use steal_pool::{OpenGate, Workers};

/// Prints what is answered by one worker and by four.
pub(crate) fn show<R: Threads + Wait + Sync>(rt: &HostRuntime, threads: &R) -> io::Result<()> {
    println!(rt; "a link shut and opened again")?;
    let by = Workers {
        rt: threads,
        gate: &OpenGate,
        count: 4,
    };
    show_by(rt, &by.one())?;
    show_by(rt, &by)
}

fn show_by<R: Threads + Wait + Sync>(
    rt: &HostRuntime,
    by: &Workers<R, OpenGate>,
) -> io::Result<()> {
    let count = by.count;
    match answered(rt.alloc(), by) {
        None => println!(rt; "  not read, or no memory"),
        Some(RolloutAnswer::Holds) => println!(rt; "  workers {count}: holds"),
        Some(
            RolloutAnswer::Fails {
                step,
                question,
                header,
            },
        ) => {
            let number = header.to_bits();
            println!(rt; "  workers {count}: step {step} question {question} fails {number}")
        }
    }
}

fn answered<R: Threads + Wait + Sync>(
    alloc: Global,
    by: &Workers<R, OpenGate>,
) -> Option<RolloutAnswer> {
    let linked = network_of(alloc, Plan::Pair)?;
    answered_over(alloc, by, &linked)
}

fn answered_over<R: Threads + Wait + Sync>(
    alloc: Global,
    by: &Workers<R, OpenGate>,
    linked: &Linked,
) -> Option<RolloutAnswer> {
    let shut = device(alloc, 0, SHUT)?;
    let open = device(alloc, 0, AT_EACH_OTHER[0])?;
    answered_on(alloc, by, linked, &[shut, open]).ok()
}

fn answered_on<R: Threads + Wait + Sync>(
    alloc: Global,
    by: &Workers<R, OpenGate>,
    linked: &Linked,
    changes: &[NetDevice; 2],
) -> Result<RolloutAnswer, NoMemory> {
    let rollout = Rollout {
        base: &linked.network,
        changes,
        links: &linked.links,
    };
    check_rollout(
        by,
        alloc,
        &rollout,
        &[loops_never(), reaches_far_end()],
        255,
    )
}

// Nothing that is for 10.0.12.2 goes round.
fn loops_never() -> Question {
    Question {
        kind: QuestionKind::NoLoop,
        to: None,
        ..reaches_far_end()
    }
}

// Packets for 10.0.12.2 that enter at the first router come to the second one.
fn reaches_far_end() -> Question {
    let destination = 0x0a00_0c02_u128 << 80;
    let mask = 0xffff_ffff_u128 << 80;
    Question {
        kind: QuestionKind::Reach,
        from: Place {
            device: 0,
            interface: 0,
        },
        to: Some(Place {
            device: 1,
            interface: 0,
        }),
        filter: Cube::from_masks(mask, destination).unwrap_or(Cube::all()),
    }
}
