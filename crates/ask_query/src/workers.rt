//! The slots of all questions, answered by workers.

ghost use Rattle.std.specs.Prelude.{◌≡◌, ◌<◌, ◌≤◌, ◌^◌, ℕ, AllPairs, Any, IfOk, IfSome, length};
ghost use Rattle.net_types.specs.Questions.{AreAnswers};
ghost use Rattle.net_view.specs.Borrowed.{world_of};
ghost use Rattle.task_board.specs.Regions.{Holds, LieApart};
ghost use Rattle.loop_search.specs.WholeNets.{IsWholeNet};
ghost use Rattle.ask_query.specs.Shared.{IsAsked, IsNamed};

use crate::answering::{Answering, BySlots};
use crate::answers::filtered;
use crate::gathering::answers_of_leaves;
use crate::shared::{Asked, Asking};
use crate::slots::slots_of;
use cube_alg::Region;
use cube_diagram::Diagrams;
use hdr_bits::Cube;
use loop_search::loop_bounds;
use net_types::{Answer, NoMemory, Question};
use set_walk::Net;
use std::alloc::Global;
use std::marker::{Brand, PhantomData};
use std::sync::Wait;
use std::thread::Threads;
use steal_pool::{Gate, Workers, run, whole_slots};
use table_twins::{Base, Twins};

/// The answers that `answer` gives, of a network whose ways are known for all headers: sets of this table.
///
/// Questions that share walks are one slot, and a slot is worked on by one worker. It answers `NoMemory` only where there was none.
pub fn answers_by<G: Gate + Sync, R: Threads + Wait + Sync>(
    by: &Workers<R, G>,
    alloc: Global,
    mut table: Diagrams,
    net: &Net,
    questions: &[Question],
    ttl: u8,
) -> Result<Vec<Answer>, NoMemory>
    requires net { IsWholeNet table net.now }
    requires ttl { 1 ≤ ttl }
    ensures { IfOk result (λ answers. AreAnswers (world_of net.now.world) ttl questions.now answers.items) }
{
    let domain = filtered(&mut table, questions)?;
    let bounds = loop_bounds(alloc, &mut table, net, questions)?;
    let slots = slots_of(alloc, questions)?;
    let asked = Asked {
        net,
        domain,
        bounds: &bounds,
        ttl,
        questions,
        slots: &slots,
    };
    answers_by_slots(by, alloc, table, &asked)
}

// What workers share is named for it by a type.
fn answers_by_slots<G: Gate + Sync, R: Threads + Wait + Sync>(
    by: &Workers<R, G>,
    alloc: Global,
    table: Diagrams,
    asked: &Asked,
) -> Result<Vec<Answer>, NoMemory>
    requires { IsAsked table asked.now }
    ensures { IfOk result (λ answers. AreAnswers (world_of asked.now.net.now.world) asked.now.ttl asked.now.questions.now answers.items) }
{
    answers_in_twins::<Brand, G, R>(by, alloc, table, asked)
}

// Several workers walk in copies of the table. One walks in the table itself, and so it does where there is one slot.
fn answers_in_twins<K: Asking + Base + Send + Sync, G: Gate + Sync, R: Threads + Wait + Sync>(
    by: &Workers<R, G>,
    alloc: Global,
    table: Diagrams,
    asked: &Asked,
) -> Result<Vec<Answer>, NoMemory>
    requires asked { IsAsked table asked.now }
    requires base { K.base ≡ table }
    requires named { IsNamed K.world K.ttl K.questions K.slots asked.now }
    ensures { IfOk result (λ answers. AreAnswers (world_of asked.now.net.now.world) asked.now.ttl asked.now.questions.now answers.items) }
{
    if by.count == 1 || asked.slots.len() < 2 {
        let twins: Twins<K> = Twins::of(alloc, table)?;
        return answers_shared(&by.one(), alloc, None, &twins, asked);
    }
    let twins: Twins<K> = Twins::new(alloc);
    answers_shared(by, alloc, Some(&table), &twins, asked)
}

// By workers who walk in these twins of the base.
fn answers_shared<K: Asking + Base + Send + Sync, G: Gate + Sync, R: Threads + Wait + Sync>(
    by: &Workers<R, G>,
    alloc: Global,
    base: Option<&Diagrams>,
    twins: &Twins<K>,
    asked: &Asked,
) -> Result<Vec<Answer>, NoMemory>
    requires asked { IsAsked K.base asked.now }
    requires base { IfSome base (λ b. K.base ≡ b.now) }
    requires named { IsNamed K.world K.ttl K.questions K.slots asked.now }
    ensures { IfOk result (λ answers. AreAnswers (world_of asked.now.net.now.world) asked.now.ttl asked.now.questions.now answers.items) }
{
    let source: Answering<R, K> = Answering::of(by.rt, base, twins, asked);
    let roots = whole_slots(alloc, asked.slots.len())?;
    let splitter = BySlots {
        source: &source,
        asking: PhantomData,
    };
    let leaves = run(by, alloc, roots.as_slice(), splitter)?;
    answers_of_leaves(alloc, asked, &leaves)
}
