//! The text of answers.

ghost use Rattle.std.specs.Prelude.{◌≡◌, ◌+◌, ◌++◌, IfOk, OnOk};
ghost use Rattle.result_text.specs.AnswerText.{answer_text, answers_from, answers_text, failed_count, failed_text, fails, fails_text};

use hdr_bits::Header;
use net_types::{Answer, NoMemory};
use report_text::TextPart::{Bytes, Number};
use report_text::{append, append_all, append_number, header_bytes};
use std::alloc::Global;

/// Answers as text: in their order, numbered from 1, a line `K holds` or `K fails HEADER`, and last `failed N` with the number
/// of those that fail. Each line ends with LF.
#[tactic(auto, unfolding(crate::specs::AnswerText::answers_text))]
pub fn answers_bytes(alloc: Global, answers: &[Answer]) -> Result<Vec<u8>, NoMemory>
    ensures { IfOk result (λ text. text.items ≡ answers_text answers.now) }
{
    let mut text = Vec::new(alloc);
    append_answers(alloc, &mut text, answers)?;
    append_failed(&mut text, answers)?;
    Ok(text)
}

/// How many of the answers fail.
pub fn failed_count(answers: &[Answer]) -> usize
    ensures { result ≡ failed_count answers.now }
{
    answers.iter().filter(|answer| fails(answer)).count()
}

fn fails(answer: &Answer) -> bool
    ensures { result ≡ fails answer.now }
{
    match answer {
        Answer::Holds => false,
        Answer::Fails { header: _ } => true,
    }
}

fn append_answers(alloc: Global, out: &mut Vec<u8>, answers: &[Answer]) -> Result<(), NoMemory>
    ensures { OnOk result (out.new.items ≡ out.old.items ++ answers_from 1 answers.now) }
{
    for i in 0..answers.len() {
        append_answer(alloc, out, i as u64 + 1, &answers[i])?;
    }
    Ok(())
}

// The line of an answer.
fn append_answer(
    alloc: Global,
    out: &mut Vec<u8>,
    number: u64,
    answer: &Answer,
) -> Result<(), NoMemory>
    ensures { OnOk result (out.new.items ≡ out.old.items ++ answer_text number answer.now) }
{
    append_number(out, number)?;
    match answer {
        Answer::Holds => append(out, b" holds\n"),
        Answer::Fails { header } => append_header(alloc, out, header),
    }
}

fn append_header(alloc: Global, out: &mut Vec<u8>, header: &Header) -> Result<(), NoMemory>
    ensures { OnOk result (out.new.items ≡ out.old.items ++ fails_text header.now) }
{
    let header = header_bytes(alloc, header)?;
    append_all(out, &[Bytes(b" fails "), Bytes(&header), Bytes(b"\n")])
}

// The last line.
#[tactic(auto, unfolding(crate::specs::AnswerText::failed_text))]
fn append_failed(out: &mut Vec<u8>, answers: &[Answer]) -> Result<(), NoMemory>
    ensures { OnOk result (out.new.items ≡ out.old.items ++ failed_text answers.now) }
{
    append_all(
        out,
        &[
            Bytes(b"failed "),
            Number(failed_count(answers) as u128),
            Bytes(b"\n"),
        ],
    )
}
