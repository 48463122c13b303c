//! Why questions are refused.

ghost use Rattle.std.specs.Prelude.{◌≡◌, ◌≢◌, []};
ghost use Rattle.ask_query.specs.Refusals.{refusal_text, refused};

use net_text::cut;
use net_types::{NoMemory, Text};
use std::alloc::{AllocError, AllocFailed, Global};

/// Why a line of a question file is refused.
#[derive(Clone, Copy, Debug, PartialEq, Eq)]
pub enum QuestionRefusal {
    /// The word isn't the one that has to stand there: no kind of question, not `to`, no field, a field that is named twice, or
    /// no text of that field.
    BadWord,
    /// The line ends too early.
    MissingWord,
    /// The network has no device, or the device no interface, of this name.
    UnknownPlace,
}

impl QuestionRefusal {
    /// The word that is printed of it.
    pub fn name(self) -> &'static str
        ensures { result.now ≡ refusal_text self }
    {
        match self {
            QuestionRefusal::BadWord => "BadWord",
            QuestionRefusal::MissingWord => "MissingWord",
            QuestionRefusal::UnknownPlace => "UnknownPlace",
        }
    }
}

/// Why there are no questions.
#[derive(Drop)]
pub enum QuestionFail {
    Refused {
        kind: QuestionRefusal,
        /// The line's place in the text, from 1.
        line: u32,
        /// The word that shows it, at most its first 64 bytes; empty where a word is missing.
        word: Text,
    },
    NoMemory,
}

/// The refusal of a line at a word, or want of memory for it.
pub(crate) fn at_word(alloc: Global, kind: QuestionRefusal, line: u32, word: &Text) -> QuestionFail
    ensures { result ≢ QuestionFail.NoMemory → result ≡ refused kind line word.now }
{
    match cut(alloc, word) {
        Ok(word) => QuestionFail::Refused { kind, line, word },
        Err(NoMemory) => QuestionFail::NoMemory,
    }
}

/// The refusal of a line that ends too early.
pub(crate) fn missing(alloc: Global, line: u32) -> QuestionFail
    ensures { result ≡ refused QuestionRefusal.MissingWord line [] }
{
    QuestionFail::Refused {
        kind: QuestionRefusal::MissingWord,
        line,
        word: Text::new(Vec::new(alloc)),
    }
}

impl From<NoMemory> for QuestionFail {
    ghost use Rattle.std.specs.Prelude.{◌≡◌};
    ghost use Rattle.ask_query.specs.declared.refusal.QuestionFail.TheVariants as fail;

    ghost from_gives = { λ _ e. e ≡ fail.NoMemory };

    fn from(_: NoMemory) -> QuestionFail {
        QuestionFail::NoMemory
    }
}

impl From<AllocError> for QuestionFail {
    ghost use Rattle.std.specs.Prelude.{◌≡◌};
    ghost use Rattle.ask_query.specs.declared.refusal.QuestionFail.TheVariants as fail;

    ghost from_gives = { λ _ e. e ≡ fail.NoMemory };

    fn from(_: AllocError) -> QuestionFail {
        QuestionFail::NoMemory
    }
}

impl<T: Drop> From<AllocFailed<T>> for QuestionFail {
    ghost use Rattle.std.specs.Prelude.{◌≡◌};
    ghost use Rattle.ask_query.specs.declared.refusal.QuestionFail.TheVariants as fail;

    ghost from_gives = { λ _ e. e ≡ fail.NoMemory };

    fn from(_: AllocFailed<T>) -> QuestionFail {
        QuestionFail::NoMemory
    }
}
