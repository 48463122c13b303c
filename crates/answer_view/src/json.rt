//! Answers as one document of JSON.
ghost use Rattle.std.specs.Prelude.{◌≡◌, ◌++◌, codes, IfOk, OnOk};
ghost use Rattle.std.specs.List.{join_by};
ghost use Rattle.json_text.specs.Json.{string_member, header_members};
ghost use Rattle.answer_view.specs.Packet.{packet_words};
ghost use Rattle.answer_view.specs.ShownJson.{packet_json, fails_json, answer_json, before_json, question_members, answer_members, question_json, count_member, json_front, counts_json, answers_json};

use crate::answered::Answered;
use crate::groups::{Group, count_in, group_name, group_of, groups_of};
use crate::packet::append_packet;
use hdr_bits::Header;
use json_text::{append_header_members, append_member};
use net_types::{Answer, NoMemory};
use report_text::TextPart::{Bytes, Number};
use report_text::{append, append_all, append_number};
use std::alloc::Global;

// Each function adds a text at the end. Where memory runs out, a part of the text may stand there.

/// The document: how many questions there are of each group, and all questions with their answers.
#[tactic(auto, unfolding(crate::specs::ShownJson::answers_json))]
pub(crate) fn json_bytes(
    alloc: Global,
    compared: bool,
    answered: &[Answered],
) -> Result<Vec<u8>, NoMemory>
    ensures { IfOk result (λ text. text.items ≡ answers_json compared answered.now) }
{
    let mut text = Vec::new(alloc);
    append_counts(&mut text, compared, answered)?;
    append(&mut text, b"},\n\"answers\": [")?;
    append_questions(alloc, &mut text, answered)?;
    append(&mut text, b"]}\n")?;
    Ok(text)
}

#[tactic(auto, unfolding(crate::specs::ShownJson::counts_json))]
fn append_counts(out: &mut Vec<u8>, compared: bool, answered: &[Answered]) -> Result<(), NoMemory>
    ensures { OnOk result (out.new.items ≡ out.old.items ++ counts_json compared answered.now) }
{
    append_front(out)?;
    append_number(out, answered.len())?;
    append(out, b",\n\"groups\": {")?;
    append_group_counts(out, answered, groups_of(compared))?;
    Ok(())
}

// The schema with its version, up to the number of all questions.
#[tactic(auto, unfolding(crate::specs::ShownJson::json_front))]
fn append_front(out: &mut Vec<u8>) -> Result<(), NoMemory>
    ensures { OnOk result (out.new.items ≡ out.old.items ++ json_front) }
{
    append(
        out,
        b"{\"schema\": \"diqenyu-answers\", \"version\": 1, \"questions\": ",
    )
}

fn append_group_counts(
    out: &mut Vec<u8>,
    answered: &[Answered],
    groups: &[Group],
) -> Result<(), NoMemory>
    ensures { OnOk result (out.new.items ≡ out.old.items ++ join_by (count_member answered.now) (codes ", ") groups.now) }
{
    let [first, rest @ ..] = groups else {
        return Ok(());
    };
    append_group_count(out, answered, *first)?;
    for group in rest {
        append(out, b", ")?;
        append_group_count(out, answered, *group)?;
    }
    Ok(())
}

#[tactic(auto, unfolding(crate::specs::ShownJson::count_member))]
fn append_group_count(
    out: &mut Vec<u8>,
    answered: &[Answered],
    group: Group,
) -> Result<(), NoMemory>
    ensures { OnOk result (out.new.items ≡ out.old.items ++ count_member answered.now group) }
{
    append_all(
        out,
        &[
            Bytes(b"\""),
            Bytes(group_name(group)),
            Bytes(b"\": "),
            Number(count_in(answered, group) as u128),
        ],
    )
}

fn append_questions(alloc: Global, out: &mut Vec<u8>, answered: &[Answered]) -> Result<(), NoMemory>
    ensures { OnOk result (out.new.items ≡ out.old.items ++ join_by question_json (codes ",\n") answered.now) }
{
    let [first, rest @ ..] = answered else {
        return Ok(());
    };
    append_question(alloc, out, first)?;
    for one in rest {
        append(out, b",\n")?;
        append_question(alloc, out, one)?;
    }
    Ok(())
}

#[tactic(auto, unfolding(crate::specs::ShownJson::question_json))]
fn append_question(alloc: Global, out: &mut Vec<u8>, answered: &Answered) -> Result<(), NoMemory>
    ensures { OnOk result (out.new.items ≡ out.old.items ++ question_json answered.now) }
{
    append(out, b"{")?;
    append_question_members(out, answered)?;
    append_answer_members(alloc, out, answered)?;
    append(out, b"}")
}

// What became of a question, and its answers.
#[tactic(auto, unfolding(crate::specs::ShownJson::answer_members))]
fn append_answer_members(
    alloc: Global,
    out: &mut Vec<u8>,
    answered: &Answered,
) -> Result<(), NoMemory>
    ensures { OnOk result (out.new.items ≡ out.old.items ++ answer_members answered.now) }
{
    append(out, b", ")?;
    append_member(out, b"group", group_name(group_of(answered)))?;
    append(out, b", \"before\": ")?;
    append_before(alloc, out, &answered.before)?;
    append(out, b", \"after\": ")?;
    append_answer(alloc, out, &answered.after)?;
    Ok(())
}

#[tactic(auto, unfolding(crate::specs::ShownJson::question_members))]
fn append_question_members(out: &mut Vec<u8>, answered: &Answered) -> Result<(), NoMemory>
    ensures { OnOk result (out.new.items ≡ out.old.items ++ question_members answered.now) }
{
    append_all(
        out,
        &[
            Bytes(b"\"number\": "),
            Number(answered.number.into()),
            Bytes(b", \"line\": "),
            Number(answered.question.line.into()),
            Bytes(b", "),
        ],
    )?;
    append_member(out, b"question", answered.question.words.as_bytes())
}

fn append_before(alloc: Global, out: &mut Vec<u8>, before: &Option<Answer>) -> Result<(), NoMemory>
    ensures { OnOk result (out.new.items ≡ out.old.items ++ before_json before.now) }
{
    match before {
        Some(answer) => append_answer(alloc, out, answer),
        None => append(out, b"null"),
    }
}

#[tactic(auto, unfolding(crate::specs::ShownJson::answer_json))]
fn append_answer(alloc: Global, out: &mut Vec<u8>, answer: &Answer) -> Result<(), NoMemory>
    ensures { OnOk result (out.new.items ≡ out.old.items ++ answer_json answer.now) }
{
    match answer {
        Answer::Holds => append(out, b"{\"holds\": true}"),
        Answer::Fails { header } => append_failing(alloc, out, header),
    }
}

#[tactic(auto, unfolding(crate::specs::ShownJson::fails_json))]
fn append_failing(alloc: Global, out: &mut Vec<u8>, header: &Header) -> Result<(), NoMemory>
    ensures { OnOk result (out.new.items ≡ out.old.items ++ fails_json header.now) }
{
    append(out, b"{\"holds\": false, \"packet\": ")?;
    append_packet_object(alloc, out, header)?;
    append(out, b"}")?;
    Ok(())
}

#[tactic(auto, unfolding(crate::specs::ShownJson::packet_json))]
fn append_packet_object(alloc: Global, out: &mut Vec<u8>, header: &Header) -> Result<(), NoMemory>
    ensures { OnOk result (out.new.items ≡ out.old.items ++ packet_json header.now) }
{
    append(out, b"{")?;
    append_header_members(alloc, out, header)?;
    append(out, b", ")?;
    append_words(alloc, out, header)?;
    append(out, b"}")
}

fn append_words(alloc: Global, out: &mut Vec<u8>, header: &Header) -> Result<(), NoMemory>
    ensures { OnOk result (out.new.items ≡ out.old.items ++ string_member (codes "words") (packet_words header.now)) }
{
    let mut words = Vec::new(alloc);
    append_packet(alloc, &mut words, header)?;
    append_member(out, b"words", &words)
}
