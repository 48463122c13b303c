//! The networks of a change window, asked one after the other.

ghost use Rattle.std.specs.Prelude.{◌≡◌, ◌≤◌, ◌<◌, ◌^◌, IfOk, length, map};
ghost use Rattle.live_network.specs.Live.{IsLive};
ghost use Rattle.net_view.specs.Borrowed.{world_of};
ghost use Rattle.rollout.specs.declared.steps.RolloutAnswer.TheVariants as rollout;
ghost use Rattle.rollout.specs.Steps.{AllHold, IsRolloutAnswer, IsStep, network_after, networks, world};

use crate::failing::{Failure, failure_after, failure_in};
use crate::network::{Step, network_after};
use hdr_bits::Header;
use list_tables::formed_by_workers;
use live_network::{LiveWays, ways_of_formed};
use net_forms::Networks;
use net_types::{Duplicate, Links, NetDevice, Network, NoMemory, Question};
use net_view::WorldRef;
use std::alloc::Global;
use std::sync::Wait;
use std::thread::Threads;
use steal_pool::{Gate, Workers};

/// A change window: in the first network devices are replaced one after the other, while the links stay.
#[derive(Drop)]
pub struct Rollout<'a> {
    pub base: &'a Network,
    /// At step j + 1 the device of that name is replaced by the change at position j; where there is none, nothing changes.
    pub changes: &'a [NetDevice],
    pub links: &'a Links,
}

/// Whether the networks of a change window meet the questions.
#[derive(Clone, Copy, Debug, PartialEq, Eq)]
pub enum RolloutAnswer {
    /// Each network gives Holds to each question.
    Holds,
    /// The first network that doesn't.
    Fails {
        /// How many devices are replaced in it.
        step: u32,
        /// The first question that fails in it, counted from 1.
        question: u32,
        /// The least header of that question's filter, by its number, that breaks it.
        header: Header,
    },
}

/// Asks the questions of each network of a change window, from the one before all changes to the one after the last. Of a network
/// behind another one those questions alone are asked of which some header may walk otherwise than in that one.
///
/// The answer is the same for each number of workers. The TTL is at least 1; changes and questions are fewer than 2^32. It answers
/// `NoMemory` only where there was none.
pub fn check_rollout<G: Gate + Sync, R: Threads + Wait + Sync>(
    by: &Workers<R, G>,
    alloc: Global,
    rollout: &Rollout,
    questions: &[Question],
    ttl: u8,
) -> Result<RolloutAnswer, NoMemory>
    requires ttl { 1 ≤ ttl }
    requires changes { length rollout.now.changes.now < 2 ^ 32 }
    requires questions { length questions.now < 2 ^ 32 }
    ensures { IfOk result (IsRolloutAnswer ttl questions.now (map (world rollout.now.links.now) (networks rollout.now.base.now rollout.now.changes.now))) }
{
    let base = WorldRef {
        network: rollout.base,
        links: rollout.links,
    };
    let mut live = opened(by, alloc, base)?;
    check_opened(by, alloc, rollout, &mut live, questions, ttl)
}

// The same, where this is kept of the first network.
fn check_opened<G: Gate + Sync, R: Threads + Wait + Sync>(
    by: &Workers<R, G>,
    alloc: Global,
    rollout: &Rollout,
    live: &mut LiveWays,
    questions: &[Question],
    ttl: u8,
) -> Result<RolloutAnswer, NoMemory>
    requires live { IsLive (world rollout.now.links.now rollout.now.base.now) live.old }
    requires ttl { 1 ≤ ttl }
    requires changes { length rollout.now.changes.now < 2 ^ 32 }
    requires questions { length questions.now < 2 ^ 32 }
    ensures { IfOk result (IsRolloutAnswer ttl questions.now (map (world rollout.now.links.now) (networks rollout.now.base.now rollout.now.changes.now))) }
{
    let base = WorldRef {
        network: rollout.base,
        links: rollout.links,
    };
    if let Some(first) = failure_in(by, alloc, live, base, questions, ttl)? {
        return Ok(fails_at(0, first));
    }
    check_changes(by, alloc, rollout, live, questions, ttl)
}

// The same, where the first network meets all questions.
fn check_changes<G: Gate + Sync, R: Threads + Wait + Sync>(
    by: &Workers<R, G>,
    alloc: Global,
    rollout: &Rollout,
    live: &mut LiveWays,
    questions: &[Question],
    ttl: u8,
) -> Result<RolloutAnswer, NoMemory>
    requires live { IsLive (world rollout.now.links.now rollout.now.base.now) live.old }
    requires hold { AllHold ttl questions.now (world rollout.now.links.now rollout.now.base.now) }
    requires ttl { 1 ≤ ttl }
    requires changes { length rollout.now.changes.now < 2 ^ 32 }
    requires questions { length questions.now < 2 ^ 32 }
    ensures { IfOk result (IsRolloutAnswer ttl questions.now (map (world rollout.now.links.now) (networks rollout.now.base.now rollout.now.changes.now))) }
{
    let mut network = rollout.base.copy(alloc)?;
    let mut step = 0;
    for change in rollout.changes {
        step += 1;
        let next = network_after(alloc, &network, change)?;
        let at = step_between(&network, &next, change, rollout.links);
        if let Some(failure) = failure_after(by, alloc, live, at, questions, ttl)? {
            return Ok(fails_at(step, failure));
        }
        network = next;
    }
    Ok(RolloutAnswer::Holds)
}

// The first network, whose long lists are made functions by the workers.
fn opened<R: Threads + Sync, G>(
    by: &Workers<R, G>,
    alloc: Global,
    world: WorldRef,
) -> Result<LiveWays, NoMemory>
    ensures { IfOk result (IsLive (world_of world.entry)) }
{
    let formed = formed_by_workers(by, alloc, world)?;
    let live = ways_of_formed(alloc, formed)?;
    Ok(live)
}

// The step from one network to the one after the change.
fn step_between<'a>(
    old: &'a Network,
    new: &'a Network,
    change: &'a NetDevice,
    links: &'a Links,
) -> Step<'a>
    requires { new.now ≡ network_after change.now old.now }
    ensures step { IsStep result }
    ensures old { world_of result.networks.old ≡ world links.now old.now }
    ensures new { world_of result.networks.new ≡ world links.now new.now }
{
    Step {
        networks: Networks {
            old: WorldRef {
                network: old,
                links,
            },
            new: WorldRef {
                network: new,
                links,
            },
        },
        change,
    }
}

// The answer of a step at which a question fails.
fn fails_at(step: u32, failure: Failure) -> RolloutAnswer
    ensures { result ≡ rollout.Fails step failure.question failure.header }
{
    let Failure { question, header } = failure;
    RolloutAnswer::Fails {
        step,
        question,
        header,
    }
}
