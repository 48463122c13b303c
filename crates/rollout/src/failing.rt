//! The first question that a network doesn't meet, asked of it alone or behind a network that meets all.

ghost use Rattle.std.specs.Prelude.{ℕ, ◌≡◌, ◌≤◌, ◌<◌, ◌^◌, List, IfOk, OnOk, length};
ghost use Rattle.live_network.specs.Live.{IsLive};
ghost use Rattle.net_types.specs.Questions.{AreAnswers};
ghost use Rattle.net_types.specs.World.{World};
ghost use Rattle.net_view.specs.Borrowed.{world_of};
ghost use Rattle.rollout.specs.Failing.{IsFirstFailure};
ghost use Rattle.rollout.specs.Steps.{AllHold, IsStep};
ghost use Rattle.rollout.specs.Touched.{asked_again, with_others};

use crate::network::Step;
use crate::touched::touched;
use ask_query::answers_by;
use hdr_bits::Header;
use live_network::{LiveWays, net_of, settle};
use net_types::{Answer, NoMemory, Question};
use net_view::WorldRef;
use std::alloc::Global;
use std::sync::Wait;
use std::thread::Threads;
use steal_pool::{Gate, Workers};

/// A question that fails.
#[derive(Clone, Copy, Debug, PartialEq, Eq)]
pub(crate) struct Failure {
    /// Which of the questions it is, counted from 1.
    pub question: u32,
    /// The least header of its filter that breaks it.
    pub header: Header,
}

/// The first of the questions that fails in a network of which this is kept, where one does.
pub(crate) fn failure_in<G: Gate + Sync, R: Threads + Wait + Sync>(
    by: &Workers<R, G>,
    alloc: Global,
    live: &LiveWays,
    world: WorldRef,
    questions: &[Question],
    ttl: u8,
) -> Result<Option<Failure>, NoMemory>
    requires live { IsLive (world_of world) live.now }
    requires ttl { 1 ≤ ttl }
    requires few { length questions.now < 2 ^ 32 }
    ensures { IfOk result (IsFirstFailure ttl questions.now (world_of world.entry)) }
{
    let answers = answers_in(by, alloc, live, world, questions, ttl)?;
    Ok(first_failure(&answers))
}

/// The first of the questions that fails after the step, where one does. Before it each of them holds, so those alone are asked
/// again that the step may touch. What is kept of the network before the step becomes what is kept of the one after it.
pub(crate) fn failure_after<G: Gate + Sync, R: Threads + Wait + Sync>(
    by: &Workers<R, G>,
    alloc: Global,
    live: &mut LiveWays,
    step: Step,
    questions: &[Question],
    ttl: u8,
) -> Result<Option<Failure>, NoMemory>
    requires live { IsLive (world_of step.networks.old) live.old }
    requires step { IsStep step }
    requires ttl { 1 ≤ ttl }
    requires few { length questions.now < 2 ^ 32 }
    requires hold { AllHold ttl questions.now (world_of step.networks.old) }
    ensures failure { IfOk result (IsFirstFailure ttl questions.now (world_of step.entry.networks.new)) }
    ensures live { OnOk result (IsLive (world_of step.entry.networks.new) live.new) }
{
    let touched = touched(alloc, live, step, questions)?;
    let asked = asked_again(alloc, questions, &touched)?;
    let told = answers_in(by, alloc, live, step.networks.new, &asked, ttl)?;
    let answers = with_others(alloc, &touched, told)?;
    settle(alloc, step.networks.new, live);
    Ok(first_failure(&answers))
}

// The answers in a network of which this is kept.
fn answers_in<G: Gate + Sync, R: Threads + Wait + Sync>(
    by: &Workers<R, G>,
    alloc: Global,
    live: &LiveWays,
    world: WorldRef,
    questions: &[Question],
    ttl: u8,
) -> Result<Vec<Answer>, NoMemory>
    requires live { IsLive (world_of world) live.now }
    requires ttl { 1 ≤ ttl }
    ensures { IfOk result (λ answers. AreAnswers (world_of world.entry) ttl questions.now answers.items) }
{
    if questions.is_empty() {
        return Ok(Vec::new(alloc));
    }
    let table = live.tables.diagrams.twin()?;
    let net = net_of(live, world);
    let answers = answers_by(by, alloc, table, &net, questions, ttl)?;
    Ok(answers)
}

// The questions that are touched.
fn asked_again(
    alloc: Global,
    questions: &[Question],
    touched: &[bool],
) -> Result<Vec<Question>, NoMemory>
    requires { length touched.now ≡ length questions.now }
    ensures { IfOk result (λ asked. asked.items ≡ asked_again questions.now touched.now) }
{
    let mut asked = Vec::new(alloc);
    for i in 0..questions.len() {
        if touched[i] {
            asked.push(questions[i])?;
        }
    }
    Ok(asked)
}

// The answers to all questions: those of the touched ones, and Holds for all others.
fn with_others(alloc: Global, touched: &[bool], told: Vec<Answer>) -> Result<Vec<Answer>, NoMemory>
    ensures { IfOk result (λ answers. answers.items ≡ with_others touched.now told.items) }
{
    let mut answers = Vec::with_capacity(alloc, touched.len())?;
    let mut rest = told.into_iter();
    for is_touched in touched {
        let answer = if *is_touched { rest.next() } else { None };
        answers.push(answer.unwrap_or(Answer::Holds))?;
    }
    Ok(answers)
}

// The first answer that says so.
fn first_failure(answers: &[Answer]) -> Option<Failure>
    requires { length answers.now < 2 ^ 32 }
    ensures { (w : World) (t : ℕ) (questions : List Question) → AreAnswers w t questions answers.now → IsFirstFailure t questions w result }
{
    let mut question = 0;
    for answer in answers {
        question += 1;
        if let Answer::Fails { header } = answer {
            return Some(Failure {
                question,
                header: *header,
            });
        }
    }
    None
}
