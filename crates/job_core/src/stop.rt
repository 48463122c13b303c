//! Why a job ends without a report: the status, and the line on the error output.

ghost use Rattle.std.specs.Prelude.{◌≡◌, ◌++◌, ◌∷◌, [], IfOk, OnOk};
ghost use Rattle.job_core.specs.Stops.{status_of, line_of, word_text, refused_head, refused_tail, refused_line, path_line, taken_line};

use net_types::{NoMemory, Text};
use report_text::{append, decimal_bytes};
use std::alloc::Global;

/// What is written where there is no memory.
pub(crate) const NO_MEMORY: &[u8] = b"no memory\n";

/// Why a job ends without a report.
#[derive(Drop)]
pub enum Stop {
    /// A file is refused: a configuration, a link table, questions or a report.
    Refused {
        path: Text,
        /// The line's place in the text, from 1; 0 where the text as a whole is refused.
        line: u64,
        /// The name of the kind of refusal; empty where a text has no kinds.
        kind: Text,
        /// The word that decides, at most 64 bytes; empty where there is none.
        word: Text,
    },
    /// Two files of a folder have one hostname.
    HostnameTaken {
        first: Text,
        second: Text,
    },
    /// A file or a folder could not be read.
    CannotRead {
        path: Text,
    },
    /// A file has more bytes than a file may have, or a folder more than a folder may.
    TooLong {
        path: Text,
    },
    /// A folder has more files than a folder may.
    TooManyFiles {
        path: Text,
    },
    /// There was no memory.
    NoMemory,
    /// A file or a folder isn't there.
    NotFound {
        path: Text,
    },
}

impl From<NoMemory> for Stop {
    ghost use Rattle.std.specs.Prelude.{◌≡◌};
    ghost use Rattle.job_core.specs.declared.stop.Stop.TheVariants as stop;

    ghost from_gives = { λ _ e. e ≡ stop.NoMemory };

    fn from(_: NoMemory) -> Stop {
        Stop::NoMemory
    }
}

impl Stop {
    /// A file is refused at a line, with the name of the kind of refusal and the word that decides.
    pub fn refused(
        alloc: Global,
        path: &str,
        line: u64,
        kind: &str,
        word: Text,
    ) -> Result<Stop, NoMemory>
        ensures { IfOk result (λ s. s ≡ Stop.Refused path.now line kind.now word) }
    {
        Ok(Stop::Refused {
            path: Text::copy_of(alloc, path.as_bytes())?,
            line,
            kind: Text::copy_of(alloc, kind.as_bytes())?,
            word,
        })
    }

    /// The status with which the program ends: 3, 4, 5, 7 or 8.
    pub fn status(&self) -> u8
        ensures { result ≡ status_of self.now }
    {
        match self {
            Stop::Refused { .. } => 3,
            Stop::HostnameTaken { .. } => 3,
            Stop::CannotRead { .. } => 4,
            Stop::TooLong { .. } => 5,
            Stop::TooManyFiles { .. } => 5,
            Stop::NoMemory => 7,
            Stop::NotFound { .. } => 8,
        }
    }

    /// What is written of it on the error output.
    pub fn line(&self, alloc: Global) -> Result<Vec<u8>, NoMemory>
        ensures { IfOk result (λ line. line.items ≡ line_of self.now) }
    {
        let mut line = Vec::new(alloc);
        match self {
            Stop::Refused {
                path,
                line: number,
                kind,
                word,
            } => append_refused(alloc, &mut line, path, *number, kind, word)?,
            Stop::HostnameTaken { first, second } => append_taken(&mut line, first, second)?,
            Stop::CannotRead { path } => append_line(&mut line, b"cannot read ", path)?,
            Stop::TooLong { path } => append_line(&mut line, b"too long ", path)?,
            Stop::TooManyFiles { path } => append_line(&mut line, b"too many files ", path)?,
            Stop::NoMemory => append(&mut line, NO_MEMORY)?,
            Stop::NotFound { path } => append_line(&mut line, b"not found ", path)?,
        }
        Ok(line)
    }
}

fn append_with(line: &mut Vec<u8>, words: &[u8], path: &Text) -> Result<(), NoMemory>
    ensures { OnOk result (line.new.items ≡ line.old.items ++ words.now ++ path.now) }
{
    append(line, words)?;
    append(line, path.as_bytes())?;
    Ok(())
}

fn append_line(line: &mut Vec<u8>, words: &[u8], path: &Text) -> Result<(), NoMemory>
    ensures { OnOk result (line.new.items ≡ line.old.items ++ path_line words.now path.now) }
{
    append_with(line, words, path)?;
    append(line, b"\n")?;
    Ok(())
}

// Which two files have one hostname, the later one first.
fn append_taken(line: &mut Vec<u8>, first: &Text, second: &Text) -> Result<(), NoMemory>
    ensures { OnOk result (line.new.items ≡ line.old.items ++ taken_line first.now second.now) }
{
    append_with(line, b"refused ", second)?;
    append_with(line, b" hostname taken by ", first)?;
    append(line, b"\n")?;
    Ok(())
}

fn append_refused(
    alloc: Global,
    line: &mut Vec<u8>,
    path: &Text,
    number: u64,
    kind: &Text,
    word: &Text,
) -> Result<(), NoMemory>
    ensures { OnOk result (line.new.items ≡ line.old.items ++ refused_line path.now number kind.now word.now) }
{
    append_head(alloc, line, path, number)?;
    append_tail(line, kind, word)?;
    Ok(())
}

fn append_head(alloc: Global, line: &mut Vec<u8>, path: &Text, number: u64) -> Result<(), NoMemory>
    ensures { OnOk result (line.new.items ≡ line.old.items ++ refused_head path.now number) }
{
    append_with(line, b"refused ", path)?;
    append(line, b" line ")?;
    append(line, &decimal_bytes(alloc, number)?)?;
    Ok(())
}

fn append_tail(line: &mut Vec<u8>, kind: &Text, word: &Text) -> Result<(), NoMemory>
    ensures { OnOk result (line.new.items ≡ line.old.items ++ refused_tail kind.now word.now) }
{
    append_word(line, kind.as_bytes())?;
    append_word(line, word.as_bytes())?;
    append(line, b"\n")?;
    Ok(())
}

// A word behind a blank, or nothing where there is none.
fn append_word(line: &mut Vec<u8>, word: &[u8]) -> Result<(), NoMemory>
    ensures { OnOk result (line.new.items ≡ line.old.items ++ word_text word.now) }
{
    if word.is_empty() {
        return Ok(());
    }
    append(line, b" ")?;
    append(line, word)?;
    Ok(())
}
