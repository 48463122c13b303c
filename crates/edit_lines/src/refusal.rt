//! Why a text of edits is refused.

ghost use Rattle.std.specs.Prelude.{◌≡◌, ◌≢◌, []};
ghost use Rattle.edit_lines.specs.Refusals.{kind_text, refused};

use incr_review::EditKind;
use net_text::cut;
use net_types::{NoMemory, Text};
use std::alloc::{AllocError, AllocFailed, Global};

/// The word that is printed of a kind of refusal. Where the words of an entry or of a route are refused as a configuration's are,
/// it is that of the configuration's kind.
pub fn kind_name(kind: EditKind) -> &'static str
    ensures { result.now ≡ kind_text kind }
{
    match kind {
        EditKind::BadWord => "BadWord",
        EditKind::MissingWord => "MissingWord",
        EditKind::UnknownDevice => "UnknownDevice",
        EditKind::UnknownList => "UnknownList",
        EditKind::SequenceTaken => "SequenceTaken",
        EditKind::NoSuchEntry => "NoSuchEntry",
        EditKind::NoSuchRoute => "NoSuchRoute",
        EditKind::Config { kind } => kind.name(),
    }
}

/// Why there are no edits.
#[derive(Drop)]
pub enum EditsFail {
    Refused {
        kind: EditKind,
        /// The line's place in the text, from 1.
        line: u32,
        /// The word that shows it, at most its first 64 bytes; empty where there is none.
        word: Text,
    },
    NoMemory,
}

/// The refusal of a line at a word, or want of memory for it.
pub(crate) fn at_word(alloc: Global, kind: EditKind, line: u32, word: &Text) -> EditsFail
    ensures { result ≢ EditsFail.NoMemory → result ≡ refused kind line word.now }
{
    match cut(alloc, word) {
        Ok(word) => EditsFail::Refused { kind, line, word },
        Err(NoMemory) => EditsFail::NoMemory,
    }
}

/// The refusal of a line that ends too early.
pub(crate) fn missing(alloc: Global, line: u32) -> EditsFail
    ensures { result ≡ refused EditKind.MissingWord line [] }
{
    EditsFail::Refused {
        kind: EditKind::MissingWord,
        line,
        word: Text::new(Vec::new(alloc)),
    }
}

impl From<NoMemory> for EditsFail {
    ghost use Rattle.std.specs.Prelude.{◌≡◌};
    ghost use Rattle.edit_lines.specs.declared.refusal.EditsFail.TheVariants as fail;

    ghost from_gives = { λ _ e. e ≡ fail.NoMemory };

    fn from(_: NoMemory) -> EditsFail {
        EditsFail::NoMemory
    }
}

impl From<AllocError> for EditsFail {
    ghost use Rattle.std.specs.Prelude.{◌≡◌};
    ghost use Rattle.edit_lines.specs.declared.refusal.EditsFail.TheVariants as fail;

    ghost from_gives = { λ _ e. e ≡ fail.NoMemory };

    fn from(_: AllocError) -> EditsFail {
        EditsFail::NoMemory
    }
}

impl<T: Drop> From<AllocFailed<T>> for EditsFail {
    ghost use Rattle.std.specs.Prelude.{◌≡◌};
    ghost use Rattle.edit_lines.specs.declared.refusal.EditsFail.TheVariants as fail;

    ghost from_gives = { λ _ e. e ≡ fail.NoMemory };

    fn from(_: AllocFailed<T>) -> EditsFail {
        EditsFail::NoMemory
    }
}
