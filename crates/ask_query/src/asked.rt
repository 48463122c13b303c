//! Questions on a network and its links.

ghost use Rattle.std.specs.Prelude.{◌≡◌, ◌≤◌, IfOk};
ghost use Rattle.net_forms.specs.Networks.{IsFormedNetwork};
ghost use Rattle.net_view.specs.Borrowed.{world_of};
ghost use Rattle.net_types.specs.Questions.{AreAnswers};

use crate::workers::answers_by;
use list_tables::formed_by_workers;
use net_forms::{FormedNetwork, Tables};
use net_types::{Answer, Links, Network, NoMemory, Question};
use net_view::WorldRef;
use place_ways::ways_of_one;
use set_walk::Net;
use std::alloc::Global;
use std::sync::Wait;
use std::thread::Threads;
use steal_pool::{Gate, Workers};

/// The answers to questions on a network with its links, in the order of the questions: a question holds exactly where no header
/// of its filter breaks it under this TTL, and else its answer is the least header that does, by its number.
///
/// The answers are the same for each number of workers. The TTL is at least 1. Places needn't be places of the network: where one
/// isn't, everything that arrives is dropped. It answers `NoMemory` only where there was none.
pub fn answer<G: Gate + Sync, R: Threads + Wait + Sync>(
    by: &Workers<R, G>,
    alloc: Global,
    network: &Network,
    links: &Links,
    questions: &[Question],
    ttl: u8,
) -> Result<Vec<Answer>, NoMemory>
    requires { 1 ≤ ttl }
    ensures { IfOk result (λ answers. AreAnswers (record { network = network.now; links = links.now }) ttl questions.now answers.items) }
{
    let world = WorldRef { network, links };
    answer_world(by, alloc, world, questions, ttl)
}

fn answer_world<G: Gate + Sync, R: Threads + Wait + Sync>(
    by: &Workers<R, G>,
    alloc: Global,
    world: WorldRef,
    questions: &[Question],
    ttl: u8,
) -> Result<Vec<Answer>, NoMemory>
    requires { 1 ≤ ttl }
    ensures { IfOk result (λ answers. AreAnswers (world_of world.entry) ttl questions.now answers.items) }
{
    let formed = formed_by_workers(by, alloc, world)?;
    answers_of(by, alloc, formed, questions, ttl)
}

// The answers on a compiled network.
fn answers_of<G: Gate + Sync, R: Threads + Wait + Sync>(
    by: &Workers<R, G>,
    alloc: Global,
    formed: FormedNetwork,
    questions: &[Question],
    ttl: u8,
) -> Result<Vec<Answer>, NoMemory>
    requires formed { IsFormedNetwork (world_of formed.form.world) formed }
    requires ttl { 1 ≤ ttl }
    ensures { IfOk result (λ answers. AreAnswers (world_of formed.entry.form.world) ttl questions.now answers.items) }
{
    let FormedNetwork { tables, form } = formed;
    let Tables {
        mut diagrams,
        fates,
    } = tables;
    // A question may ask of any headers, so all are the scope.
    let scope = diagrams.everything();
    let ways = ways_of_one(alloc, &fates, &form, scope, &mut diagrams)?;
    let net = Net {
        world: form.world,
        places: &ways.positions,
        lists: &ways.lists,
        scope,
    };
    answers_by(by, alloc, diagrams, &net, questions, ttl)
}
