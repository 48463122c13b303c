//! How the answer of a rollout is written.

ghost use Rattle.std.specs.Prelude.{◌≡◌, ◌++◌, IfOk, OnOk, decimal};
ghost use Rattle.window_core.specs.RolloutText.{answer_text, failure_text, networks_text, rollout_text};

use hdr_bits::Header;
use net_types::NoMemory;
use report_text::{append, append_number, header_bytes};
use rollout::RolloutAnswer;
use std::alloc::Global;

/// How many networks are asked, and the answer.
pub(crate) fn rollout_bytes(
    alloc: Global,
    count: u64,
    answer: &RolloutAnswer,
) -> Result<Vec<u8>, NoMemory>
    ensures { IfOk result (λ text. text.items ≡ rollout_text count answer.now) }
{
    let mut text = Vec::new(alloc);
    append_networks(&mut text, count)?;
    append_answer(alloc, &mut text, answer)?;
    Ok(text)
}

#[tactic(auto, unfolding(crate::specs::RolloutText::networks_text))]
fn append_networks(out: &mut Vec<u8>, count: u64) -> Result<(), NoMemory>
    ensures { OnOk result (out.new.items ≡ out.old.items ++ networks_text count) }
{
    append(out, b"networks ")?;
    append_number(out, count)?;
    append(out, b"\n")?;
    Ok(())
}

fn append_answer(alloc: Global, out: &mut Vec<u8>, answer: &RolloutAnswer) -> Result<(), NoMemory>
    ensures { OnOk result (out.new.items ≡ out.old.items ++ answer_text answer.now) }
{
    match answer {
        RolloutAnswer::Holds => append(out, b"rollout holds\n"),
        RolloutAnswer::Fails {
            step,
            question,
            header,
        } => append_failure(alloc, out, *step, *question, header),
    }
}

#[tactic(auto, unfolding(crate::specs::RolloutText::failure_text))]
fn append_failure(
    alloc: Global,
    out: &mut Vec<u8>,
    step: u32,
    question: u32,
    header: &Header,
) -> Result<(), NoMemory>
    ensures { OnOk result (out.new.items ≡ out.old.items ++ failure_text step question header.now) }
{
    append(out, b"step ")?;
    append_number(out, u64::from(step))?;
    append(out, b" question ")?;
    append_number(out, u64::from(question))?;
    append(out, b" fails ")?;
    append(out, &header_bytes(alloc, header)?)?;
    append(out, b"\n")?;
    Ok(())
}
