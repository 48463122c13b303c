//! Why a change window is refused.

ghost use Rattle.std.specs.Prelude.{◌≡◌, ◌≢◌, []};
ghost use Rattle.rollout_steps.specs.Refusals.{refusal_text, refused};

use net_text::cut;
use net_types::{NoMemory, Text};
use std::alloc::{AllocError, AllocFailed, Global};

/// Why a line of a change window is refused: by its words, or by the file that it names.
#[derive(Clone, Copy, Debug, PartialEq, Eq)]
pub enum StepRefusal {
    /// The first word isn't `change`, the path isn't UTF-8, or a word stands behind the path.
    BadWord,
    /// The line ends too early.
    MissingWord,
    /// The network has no device of the file's hostname.
    UnknownDevice,
    /// Two IP-enabled ends of one segment have one address in the network after the step.
    AddressTwice,
}

impl StepRefusal {
    /// The word that is printed of it.
    pub fn name(self) -> &'static str
        ensures { result.now ≡ refusal_text self }
    {
        match self {
            StepRefusal::BadWord => "BadWord",
            StepRefusal::MissingWord => "MissingWord",
            StepRefusal::UnknownDevice => "UnknownDevice",
            StepRefusal::AddressTwice => "AddressTwice",
        }
    }
}

/// Why there are no steps.
#[derive(Drop)]
pub enum StepsFail {
    Refused {
        kind: StepRefusal,
        /// The line's place in the text, from 1.
        line: u32,
        /// The word that shows it, at most its first 64 bytes; empty where a word is missing.
        word: Text,
    },
    /// There are more than 1,024 steps, and no line before the last of them is refused.
    TooMany,
    NoMemory,
}

/// The refusal of a line at a word, or want of memory for it.
pub fn at_word(alloc: Global, kind: StepRefusal, line: u32, word: &Text) -> StepsFail
    ensures { result ≢ StepsFail.NoMemory → result ≡ refused kind line word.now }
{
    match cut(alloc, word) {
        Ok(word) => StepsFail::Refused { kind, line, word },
        Err(NoMemory) => StepsFail::NoMemory,
    }
}

/// The refusal of a line that ends too early.
pub fn missing(alloc: Global, line: u32) -> StepsFail
    ensures { result ≡ refused StepRefusal.MissingWord line [] }
{
    StepsFail::Refused {
        kind: StepRefusal::MissingWord,
        line,
        word: Text::new(Vec::new(alloc)),
    }
}

impl From<NoMemory> for StepsFail {
    ghost use Rattle.std.specs.Prelude.{◌≡◌};
    ghost use Rattle.rollout_steps.specs.declared.refusal.StepsFail.TheVariants as fail;

    ghost from_gives = { λ _ e. e ≡ fail.NoMemory };

    fn from(_: NoMemory) -> StepsFail {
        StepsFail::NoMemory
    }
}

impl From<AllocError> for StepsFail {
    ghost use Rattle.std.specs.Prelude.{◌≡◌};
    ghost use Rattle.rollout_steps.specs.declared.refusal.StepsFail.TheVariants as fail;

    ghost from_gives = { λ _ e. e ≡ fail.NoMemory };

    fn from(_: AllocError) -> StepsFail {
        StepsFail::NoMemory
    }
}

impl<T: Drop> From<AllocFailed<T>> for StepsFail {
    ghost use Rattle.std.specs.Prelude.{◌≡◌};
    ghost use Rattle.rollout_steps.specs.declared.refusal.StepsFail.TheVariants as fail;

    ghost from_gives = { λ _ e. e ≡ fail.NoMemory };

    fn from(_: AllocFailed<T>) -> StepsFail {
        StepsFail::NoMemory
    }
}
