//! The answers that the lines of a text say.
ghost use Rattle.std.specs.Prelude.{◌≡◌, ◌++◌, map, IfOk, IfSome, OnOk};
ghost use Rattle.std.specs.List.{flat_map, AllByRecursion};
ghost use Rattle.answer_view.specs.AnswerText.{HasPacket};
ghost use Rattle.answer_view.specs.Said.{said_by, said_of, said_at};

use crate::headers::header_at;
use net_types::{Answer, NoMemory};
use std::alloc::Global;
use view_core::split_word;

/// What the lines say, in their order. Of what stands beside that the print of all answers is the judge.
pub(crate) fn answers_in(alloc: Global, lines: &[&[u8]]) -> Result<Vec<Answer>, NoMemory>
    ensures value { IfOk result (λ answers. answers.items ≡ flat_map said_at (map (λ line. line.now) lines.now)) }
    ensures fit { IfOk result (λ answers. AllByRecursion HasPacket answers.items) }
{
    let mut answers = Vec::new(alloc);
    for line in lines {
        add_said(&mut answers, *line)?;
    }
    Ok(answers)
}

fn add_said(answers: &mut Vec<Answer>, line: &[u8]) -> Result<(), NoMemory>
    requires { AllByRecursion HasPacket answers.old.items }
    ensures value { OnOk result (answers.new.items ≡ answers.old.items ++ said_at line.now) }
    ensures fit { OnOk result (AllByRecursion HasPacket answers.new.items) }
{
    match said_of(line) {
        Some(answer) => {
            answers.push(answer)?;
            Ok(())
        }
        None => Ok(()),
    }
}

fn said_of(line: &[u8]) -> Option<Answer>
    ensures value { result ≡ said_of line.now }
    ensures fits { IfSome result HasPacket }
{
    let (_, rest) = split_word(line);
    let (word, rest) = split_word(rest);
    said_by(word, rest)
}

fn said_by(word: &[u8], rest: &[u8]) -> Option<Answer>
    ensures value { result ≡ said_by word.now rest.now }
    ensures fits { IfSome result HasPacket }
{
    if word == b"holds".as_slice() {
        return Some(Answer::Holds);
    }
    if word != b"fails".as_slice() {
        return None;
    }
    match header_at(rest) {
        Some(header) => Some(Answer::Fails { header }),
        None => None,
    }
}
