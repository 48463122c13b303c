//! Answers as text for a person.
ghost use Rattle.std.specs.Prelude.{◌≡◌, ◌++◌, codes, IfOk, OnOk};
ghost use Rattle.std.specs.List.{flat_map, join_by};
ghost use Rattle.answer_view.specs.ShownText.{name_text, packet_line, before_line, question_text, question_part, group_text, group_part, count_text, head_text, view_text};

use crate::answered::Answered;
use crate::groups::{Group, count_in, group_name, groups_of, is_in, is_listed};
use crate::packet::append_packet;
use net_types::{Answer, NoMemory};
use report_text::TextPart::{Bytes, Number};
use report_text::{append, append_all};
use std::alloc::Global;

// Each function adds a text at the end. Where memory runs out, a part of the text may stand there.

/// The text: how many questions there are of each group, and then the questions of the groups that are shown.
#[tactic(auto, unfolding(crate::specs::ShownText::view_text))]
pub(crate) fn view_bytes(
    alloc: Global,
    compared: bool,
    answered: &[Answered],
) -> Result<Vec<u8>, NoMemory>
    ensures { IfOk result (λ text. text.items ≡ view_text compared answered.now) }
{
    let mut text = Vec::new(alloc);
    append_head(&mut text, compared, answered)?;
    append_groups(alloc, &mut text, answered, groups_of(compared))?;
    Ok(text)
}

#[tactic(auto, unfolding(crate::specs::ShownText::head_text))]
fn append_head(out: &mut Vec<u8>, compared: bool, answered: &[Answered]) -> Result<(), NoMemory>
    ensures { OnOk result (out.new.items ≡ out.old.items ++ head_text compared answered.now) }
{
    append_all(
        out,
        &[
            Bytes(b"questions "),
            Number(answered.len() as u128),
            Bytes(b": "),
        ],
    )?;
    append_counts(out, answered, groups_of(compared))?;
    append(out, b"\n")
}

fn append_counts(out: &mut Vec<u8>, answered: &[Answered], groups: &[Group]) -> Result<(), NoMemory>
    ensures { OnOk result (out.new.items ≡ out.old.items ++ join_by (count_text answered.now) (codes ", ") groups.now) }
{
    let [first, rest @ ..] = groups else {
        return Ok(());
    };
    append_count(out, answered, *first)?;
    for group in rest {
        append(out, b", ")?;
        append_count(out, answered, *group)?;
    }
    Ok(())
}

#[tactic(auto, unfolding(crate::specs::ShownText::count_text))]
fn append_count(out: &mut Vec<u8>, answered: &[Answered], group: Group) -> Result<(), NoMemory>
    ensures { OnOk result (out.new.items ≡ out.old.items ++ count_text answered.now group) }
{
    append_all(
        out,
        &[
            Bytes(group_name(group)),
            Bytes(b" "),
            Number(count_in(answered, group) as u128),
        ],
    )
}

fn append_groups(
    alloc: Global,
    out: &mut Vec<u8>,
    answered: &[Answered],
    groups: &[Group],
) -> Result<(), NoMemory>
    ensures { OnOk result (out.new.items ≡ out.old.items ++ flat_map (group_part answered.now) groups.now) }
{
    for group in groups {
        append_group_part(alloc, out, answered, *group)?;
    }
    Ok(())
}

// A group that is shown, where it has a question.
fn append_group_part(
    alloc: Global,
    out: &mut Vec<u8>,
    answered: &[Answered],
    group: Group,
) -> Result<(), NoMemory>
    ensures { OnOk result (out.new.items ≡ out.old.items ++ group_part answered.now group) }
{
    if is_listed(group) && 0 < count_in(answered, group) {
        append_group(alloc, out, answered, group)
    } else {
        Ok(())
    }
}

#[tactic(auto, unfolding(crate::specs::ShownText::group_text))]
fn append_group(
    alloc: Global,
    out: &mut Vec<u8>,
    answered: &[Answered],
    group: Group,
) -> Result<(), NoMemory>
    ensures { OnOk result (out.new.items ≡ out.old.items ++ group_text answered.now group) }
{
    append_all(out, &[Bytes(b"\n"), Bytes(group_name(group)), Bytes(b"\n")])?;
    append_questions(alloc, out, answered, group)
}

fn append_questions(
    alloc: Global,
    out: &mut Vec<u8>,
    answered: &[Answered],
    group: Group,
) -> Result<(), NoMemory>
    ensures { OnOk result (out.new.items ≡ out.old.items ++ flat_map (question_part group) answered.now) }
{
    for one in answered {
        append_question_part(alloc, out, one, group)?;
    }
    Ok(())
}

// A question of the group.
fn append_question_part(
    alloc: Global,
    out: &mut Vec<u8>,
    answered: &Answered,
    group: Group,
) -> Result<(), NoMemory>
    ensures { OnOk result (out.new.items ≡ out.old.items ++ question_part group answered.now) }
{
    if is_in(group, answered) {
        append_question(alloc, out, answered)
    } else {
        Ok(())
    }
}

#[tactic(auto, unfolding(crate::specs::ShownText::question_text))]
fn append_question(alloc: Global, out: &mut Vec<u8>, answered: &Answered) -> Result<(), NoMemory>
    ensures { OnOk result (out.new.items ≡ out.old.items ++ question_text answered.now) }
{
    append(out, b"  ")?;
    append_name(out, answered)?;
    append(out, b"\n")?;
    append_before(alloc, out, &answered.before)?;
    append_packet_line(alloc, out, b"", &answered.after)
}

/// Adds the number of a question, its line in the file, and its words.
#[tactic(auto, unfolding(crate::specs::ShownText::name_text))]
pub(crate) fn append_name(out: &mut Vec<u8>, answered: &Answered) -> Result<(), NoMemory>
    ensures { OnOk result (out.new.items ≡ out.old.items ++ name_text answered.now) }
{
    append_all(
        out,
        &[
            Number(answered.number.into()),
            Bytes(b" (line "),
            Number(answered.question.line.into()),
            Bytes(b"): "),
            Bytes(answered.question.words.as_bytes()),
        ],
    )
}

fn append_before(alloc: Global, out: &mut Vec<u8>, before: &Option<Answer>) -> Result<(), NoMemory>
    ensures { OnOk result (out.new.items ≡ out.old.items ++ before_line before.now) }
{
    match before {
        Some(answer) => append_packet_line(alloc, out, b" before", answer),
        None => Ok(()),
    }
}

// The packet for which an answer fails.
#[tactic(auto, unfolding(crate::specs::ShownText::packet_line))]
fn append_packet_line(
    alloc: Global,
    out: &mut Vec<u8>,
    side: &[u8],
    answer: &Answer,
) -> Result<(), NoMemory>
    ensures { OnOk result (out.new.items ≡ out.old.items ++ packet_line side.now answer.now) }
{
    match answer {
        Answer::Holds => Ok(()),
        Answer::Fails { header } => {
            append_all(out, &[Bytes(b"    packet"), Bytes(side), Bytes(b": ")])?;
            append_packet(alloc, out, header)?;
            append(out, b"\n")
        }
    }
}
