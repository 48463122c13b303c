//! The answers to questions on a network, by walks of sets of headers.

ghost use Rattle.std.specs.Prelude.{◌<◌, ℕ, All, IfOk, OnOk, length};
ghost use Rattle.hdr_bits.specs.declared.header.Header.{Header};
ghost use Rattle.hdr_bits.specs.HeaderBits.{number, IsHeader};
ghost use Rattle.hdr_bits.specs.CubeBits.{IsIn};
ghost use Rattle.cube_diagram.specs.Functions.{Keeps, count_of};
ghost use Rattle.indexmap.specs.IndexMap.{get};
ghost use Rattle.net_types.specs.World.{World, same_place};
ghost use Rattle.net_view.specs.Borrowed.{world_of};
ghost use Rattle.set_walk.specs.Sets.{InSet, IsSet};
ghost use Rattle.set_walk.specs.Outcomes.{AreEndsBelow};
ghost use Rattle.net_types.specs.declared.question.Question.{Question};
ghost use Rattle.net_types.specs.Questions.{IsAnswer, ReachesNamed, Loops};
ghost use Rattle.ask_query.specs.Reaching.{EndsNamed};
ghost use Rattle.ask_query.specs.Breaking.{AreBreaking, HasFilter, HaveFilters, AreWalks};
ghost use Rattle.ask_query.specs.Slots.{AnswerNumbers};
ghost use Rattle.ask_query.specs.Shared.{IsAsked};

use crate::reaching::headers_to;
use crate::shared::Asked;
use cube_diagram::Diagrams;
use hdr_bits::Cube;
use indexmap::IndexMap;
use loop_search::{bound_at, looping};
use net_types::{Answer, NoMemory, Place, Question, QuestionKind};
use set_walk::sets::{both, either, without};
use set_walk::{OutcomeSet, labels};
use std::alloc::Global;

/// The ends of all walks from a place.
#[derive(Drop)]
pub struct WalkEnds {
    pub ends: Vec<OutcomeSet>,
}

/// The answers to the questions of these numbers, in their order. From each first place the headers that some question asks of
/// are walked once.
pub(crate) fn answers_within(
    alloc: Global,
    table: &mut Diagrams,
    asked: &Asked,
    numbers: &[usize],
) -> Result<Vec<Answer>, NoMemory>
    requires asked { IsAsked table.old asked.now }
    requires numbers { All (λ n. n < length asked.now.questions.now) numbers.now }
    ensures answers { IfOk result (λ answers. AnswerNumbers (world_of asked.now.net.now.world) asked.now.ttl asked.now.questions.now numbers.now answers.items) }
    ensures kept { Keeps table.old table.new }
{
    let mut walks = IndexMap::new(alloc);
    let mut answers = Vec::new(alloc);
    for number in numbers {
        let breaking = breaking(alloc, table, asked, &mut walks, &asked.questions[*number])?;
        answers.push(answer_by(table, breaking))?;
    }
    Ok(answers)
}

// The answer to a question of which these headers are those that break it.
fn answer_by(table: &Diagrams, breaking: u32) -> Answer
    requires { breaking < count_of table.now }
    ensures { (w : World) (t : ℕ) (q : Question) → AreBreaking w t q table.now breaking → IsAnswer w t q result }
{
    match table.least(breaking) {
        None => Answer::Holds,
        Some(header) => Answer::Fails { header },
    }
}

// The headers of the filter that break the question.
fn breaking(
    alloc: Global,
    table: &mut Diagrams,
    asked: &Asked,
    walks: &mut IndexMap<Place, WalkEnds>,
    question: &Question,
) -> Result<u32, NoMemory>
    requires asked { IsAsked table.old asked.now }
    requires filter { HasFilter table.old asked.now.domain question.now }
    requires walks { AreWalks (world_of asked.now.net.now.world) asked.now.ttl table.old asked.now.domain (get same_place walks.old) }
    ensures set { IfOk result (AreBreaking (world_of asked.now.net.now.world) asked.now.ttl question.now table.new) }
    ensures walks { OnOk result (AreWalks (world_of asked.now.net.now.world) asked.now.ttl table.new asked.now.domain (get same_place walks.new)) }
    ensures kept { Keeps table.old table.new }
{
    match question.kind {
        QuestionKind::Reach => not_reaching(alloc, table, asked, walks, question),
        QuestionKind::Isolate => reaching(alloc, table, asked, walks, question),
        QuestionKind::NoLoop => filtered_loops(alloc, table, asked, question),
    }
}

// The headers of the filter that don't reach the place.
fn not_reaching(
    alloc: Global,
    table: &mut Diagrams,
    asked: &Asked,
    walks: &mut IndexMap<Place, WalkEnds>,
    question: &Question,
) -> Result<u32, NoMemory>
    requires asked { IsAsked table.old asked.now }
    requires filter { HasFilter table.old asked.now.domain question.now }
    requires walks { AreWalks (world_of asked.now.net.now.world) asked.now.ttl table.old asked.now.domain (get same_place walks.old) }
    ensures set { IfOk result (λ r. IsSet table.new r (λ h. IsIn question.now.filter (number h) × (ReachesNamed (world_of asked.now.net.now.world) asked.now.ttl question.now.from question.now.to h → ⊥))) }
    ensures walks { OnOk result (AreWalks (world_of asked.now.net.now.world) asked.now.ttl table.new asked.now.domain (get same_place walks.new)) }
    ensures kept { Keeps table.old table.new }
{
    let those = reaching(alloc, table, asked, walks, question)?;
    let filter = filter_set(table, &question.filter)?;
    without(table, filter, those)
}

// The headers of the filter that reach the place.
fn reaching(
    alloc: Global,
    table: &mut Diagrams,
    asked: &Asked,
    walks: &mut IndexMap<Place, WalkEnds>,
    question: &Question,
) -> Result<u32, NoMemory>
    requires asked { IsAsked table.old asked.now }
    requires filter { HasFilter table.old asked.now.domain question.now }
    requires walks { AreWalks (world_of asked.now.net.now.world) asked.now.ttl table.old asked.now.domain (get same_place walks.old) }
    ensures set { IfOk result (λ r. IsSet table.new r (λ h. IsIn question.now.filter (number h) × ReachesNamed (world_of asked.now.net.now.world) asked.now.ttl question.now.from question.now.to h)) }
    ensures walks { OnOk result (AreWalks (world_of asked.now.net.now.world) asked.now.ttl table.new asked.now.domain (get same_place walks.new)) }
    ensures kept { Keeps table.old table.new }
{
    if let Some(walk) = walks.get(&question.from) {
        let set = ending(table, &walk.ends, question)?;
        return Ok(set);
    }
    let ends = labels(
        alloc,
        table,
        asked.net,
        question.from,
        asked.domain,
        asked.ttl,
    )?;
    let set = ending(table, &ends, question)?;
    walks.insert(question.from, WalkEnds { ends })?;
    Ok(set)
}

// The headers of the filter that have one of these ends at the place.
fn ending(table: &mut Diagrams, ends: &[OutcomeSet], question: &Question) -> Result<u32, NoMemory>
    requires ends { AreEndsBelow table.old ends.now }
    ensures set { IfOk result (λ r. IsSet table.new r (λ h. IsIn question.now.filter (number h) × EndsNamed table.old ends.now question.now.to h)) }
    ensures kept { Keeps table.old table.new }
{
    let there = headers_to(table, ends, question.to)?;
    let filter = filter_set(table, &question.filter)?;
    both(table, filter, there)
}

// The headers of the filter that loop. Only those that may enter a loop are walked.
fn filtered_loops(
    alloc: Global,
    table: &mut Diagrams,
    asked: &Asked,
    question: &Question,
) -> Result<u32, NoMemory>
    requires { IsAsked table.old asked.now }
    ensures set { IfOk result (λ r. IsSet table.new r (λ h. IsIn question.now.filter (number h) × Loops (world_of asked.now.net.now.world) asked.now.ttl question.now.from h)) }
    ensures kept { Keeps table.old table.new }
{
    let Some(bound) = bound_at(asked.net.places, asked.bounds, question.from) else {
        return Ok(table.nothing());
    };
    let filter = filter_set(table, &question.filter)?;
    let domain = both(table, filter, bound)?;
    looping(alloc, table, asked.net, question.from, domain, asked.ttl)
}

/// The headers of all filters.
pub(crate) fn filtered(table: &mut Diagrams, questions: &[Question]) -> Result<u32, NoMemory>
    ensures below { IfOk result (λ r. r < count_of table.new) }
    ensures filters { IfOk result (λ r. HaveFilters table.new r questions.now) }
    ensures kept { Keeps table.old table.new }
{
    let mut all = table.nothing();
    for question in questions {
        all = with_filter(table, question, all)?;
    }
    Ok(all)
}

// The set, with the headers of the question's filter.
fn with_filter(table: &mut Diagrams, question: &Question, set: u32) -> Result<u32, NoMemory>
    requires { set < count_of table.old }
    ensures below { IfOk result (λ r. r < count_of table.new) }
    ensures filter { IfOk result (λ r. HasFilter table.new r question.now) }
    ensures more { IfOk result (λ r. (h : Header) → IsHeader h → InSet table.old set h → InSet table.new r h) }
    ensures kept { Keeps table.old table.new }
{
    let filter = filter_set(table, &question.filter)?;
    either(table, set, filter)
}

// The headers of a filter.
fn filter_set(table: &mut Diagrams, filter: &Cube) -> Result<u32, NoMemory>
    ensures set { IfOk result (λ r. IsSet table.new r (λ h. IsIn filter.now (number h))) }
    ensures kept { Keeps table.old table.new }
{
    table.add_entry(&[*filter], 1)
}
