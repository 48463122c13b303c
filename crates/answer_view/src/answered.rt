//! Questions with their answers.
ghost use Rattle.std.specs.Prelude.{◌≡◌, map, length, None, Some, IfOk};
ghost use Rattle.answer_view.specs.Answered.{answered_from};

use crate::asked::Asked;
use net_types::{Answer, NoMemory};
use std::alloc::Global;

/// A question with its answers.
pub struct Answered {
    /// Its place among the questions, from 1.
    pub number: u64,
    pub question: Asked,
    /// The answer before, where one was given.
    pub before: Option<Answer>,
    pub after: Answer,
}

impl Drop for Answered {
    fn drop(self) {
        let Answered {
            number: _,
            question: _,
            before: _,
            after: _,
        } = self;
    }
}

/// The questions, each with its answers.
pub(crate) fn with_answers(
    alloc: Global,
    mut asked: Vec<Asked>,
    mut before: Vec<Option<Answer>>,
    mut after: Vec<Answer>,
) -> Result<Vec<Answered>, NoMemory>
    ensures { IfOk result (λ answered. answered.items ≡ answered_from 1 asked.items before.items after.items) }
{
    asked.reverse();
    before.reverse();
    after.reverse();
    let mut answered = Vec::new(alloc);
    while let Some(question) = asked.pop() {
        let number = answered.len() as u64 + 1;
        let (Some(before), Some(after)) = (before.pop(), after.pop()) else {
            return Ok(answered);
        };
        answered.push(Answered {
            number,
            question,
            before,
            after,
        })?;
    }
    Ok(answered)
}

/// No answer before, for each of these.
pub(crate) fn none_before(alloc: Global, after: &[Answer]) -> Result<Vec<Option<Answer>>, NoMemory>
    ensures { IfOk result (λ before. before.items ≡ map (λ a. None) after.now) }
{
    let mut before = Vec::new(alloc);
    for _answer in after {
        before.push(None)?;
    }
    Ok(before)
}

/// Each of these as an answer that was given.
pub(crate) fn given_before(
    alloc: Global,
    answers: &[Answer],
) -> Result<Vec<Option<Answer>>, NoMemory>
    ensures { IfOk result (λ before. before.items ≡ map Some answers.now) }
{
    let mut before = Vec::new(alloc);
    for answer in answers {
        before.push(Some(*answer))?;
    }
    Ok(before)
}
