//! Reading the text of variants.

ghost use Rattle.std.specs.Prelude.{◌≡◌, ◌≤◌, codes, false, length};
ghost use Rattle.std.specs.Str.{bytes_eq};
ghost use Rattle.net_text.specs.Limits.{text_limit};
ghost use Rattle.rollout_steps.specs.Refusals.{Gives};
ghost use Rattle.variant_lines.specs.Reading.{Adds, below, effect_at, effects_in, is_variant, lines_limit, name_alone, name_at, variants_in, variants_of};

use net_text::{Line, lines};
use net_types::{List, NoMemory, Text};
use rollout_steps::{StepLine, StepRefusal, StepsFail, at_word, missing, read_line, texts};
use std::alloc::Global;

// The most lines that a text may have of variants and changes together.
const LINES_LIMIT: usize = 65_536;

/// A line of a text of variants.
#[derive(Drop)]
pub enum VariantLine {
    /// A variant begins.
    Variant { name: Text },
    /// In the variant that began last the configuration of a file replaces that of the device of its hostname.
    Change { step: StepLine },
}

/// The lines of a text of at most 16,777,216 bytes, at most 65,536; or why there are none: a line is refused, or there are more.
///
/// A line is refused where its first word is neither `variant` nor `change`, a change stands above the first variant, its path isn't
/// UTF-8 or a word stands behind its name or its path, with `BadWord`, and where it ends too early, with `MissingWord`. The first
/// line decides that is refused or that is one too many.
pub fn read_variants(alloc: Global, bytes: &[u8]) -> Result<Vec<VariantLine>, StepsFail>
    requires { length bytes.now ≤ text_limit }
    ensures exact { Gives (λ read. read.items) result (variants_of bytes.now) }
{
    let lines = lines(alloc, bytes)?;
    let read = read_lines(alloc, bytes, &lines)?;
    Ok(read)
}

// What the lines say.
fn read_lines(alloc: Global, bytes: &[u8], lines: &[Line]) -> Result<Vec<VariantLine>, StepsFail>
    ensures { Gives (λ read. read.items) result (variants_in (effects_in false bytes.now lines.now)) }
{
    let mut read = Vec::new(alloc);
    let mut began = false;
    for line in lines {
        let words = texts(alloc, bytes, line.words.as_slice())?;
        let said = read_one(alloc, began, line.number, &words)?;
        began = began || is_variant(&words);
        add(&mut read, said)?;
    }
    Ok(read)
}

// Adds what a line says, if it says anything, where there is room for it.
fn add(read: &mut Vec<VariantLine>, said: Option<VariantLine>) -> Result<(), StepsFail>
    requires { length read.old.items ≤ lines_limit }
    ensures { Adds read.old.items said read.new.items result }
{
    let Some(said) = said else {
        return Ok(());
    };
    if read.len() >= LINES_LIMIT {
        return Err(StepsFail::TooMany);
    }
    read.push(said)?;
    Ok(())
}

// What a line says, by its words. `began` is whether a variant began above it.
#[tactic(auto, unfolding(crate::specs::Reading::effect_at))]
fn read_one(
    alloc: Global,
    began: bool,
    line: u32,
    words: &[Text],
) -> Result<Option<VariantLine>, StepsFail>
    ensures { Gives (λ said. said) result (effect_at began line words.now) }
{
    let [word, rest @ ..] = words else {
        return Ok(None);
    };
    if is_name(word) {
        return read_name(alloc, line, rest);
    }
    let step = read_line(alloc, line, words)?;
    below(alloc, began, line, step)
}

// The variant of a line, by the words behind its first one.
#[tactic(auto, unfolding(crate::specs::Reading::name_at))]
fn read_name(alloc: Global, line: u32, words: &[Text]) -> Result<Option<VariantLine>, StepsFail>
    ensures { Gives (λ said. said) result (name_at line words.now) }
{
    let [word, rest @ ..] = words else {
        return Err(missing(alloc, line));
    };
    end(alloc, line, word, rest)
}

// The variant of this name, if no word stands behind it.
fn end(
    alloc: Global,
    line: u32,
    name: &Text,
    words: &[Text],
) -> Result<Option<VariantLine>, StepsFail>
    ensures { Gives (λ said. said) result (name_alone line name.now words.now) }
{
    if let [word, ..] = words {
        return Err(at_word(alloc, StepRefusal::BadWord, line, word));
    }
    Ok(Some(VariantLine::Variant {
        name: Text::copy_of(alloc, name.as_bytes())?,
    }))
}

// The change, if there is one, where a variant began above it.
fn below(
    alloc: Global,
    began: bool,
    line: u32,
    step: Option<StepLine>,
) -> Result<Option<VariantLine>, StepsFail>
    ensures { Gives (λ said. said) result (below began line step) }
{
    let Some(step) = step else {
        return Ok(None);
    };
    if began {
        return Ok(Some(VariantLine::Change { step }));
    }
    let word = Text::copy_of(alloc, b"change")?;
    Err(at_word(alloc, StepRefusal::BadWord, line, &word))
}

// Whether a variant begins at the line.
fn is_variant(words: &[Text]) -> bool
    ensures { result ≡ is_variant words.now }
{
    match words.first() {
        Some(word) => is_name(word),
        None => false,
    }
}

fn is_name(word: &Text) -> bool
    ensures { result ≡ bytes_eq word.now (codes "variant") }
{
    word.as_bytes() == b"variant".as_slice()
}
