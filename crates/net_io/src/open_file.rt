//! The file that was read last, which stays open so that its next piece is read without a search for the path.

ghost use Rattle.std.specs.Prelude.{◌≡◌, ◌<◌, ◌≤◌, Some, None, IfOk, IfSome, length, string_bytes};
ghost use Rattle.std.specs.Io.KnownBytes.{ReadConsumes};
ghost use Rattle.net_io.specs.RealFiles.{moved_on};

use crate::read_only::ReadOnlyFile;
use std::io;
use std::io::{Read, Seek, SeekFrom};

/// An open file, its path, and the place that a read of it comes to.
#[derive(Drop)]
pub(crate) struct OpenFile<F> {
    path: String,
    file: ReadOnlyFile<F>,
    at: u64,
}

/// The file that was read last, if it is still open.
#[derive(Drop)]
pub(crate) struct LastRead<F> {
    open: Option<OpenFile<F>>,
}

impl<F> OpenFile<F> {
    /// A file that was just opened, brought to a place.
    pub(crate) fn opened(path: String, file: ReadOnlyFile<F>, at: u64) -> io::Result<OpenFile<F>>
    where
        F: Seek + Drop,
        ensures path { IfOk result (λ last. string_bytes last.path ≡ string_bytes path) }
        ensures at { IfOk result (λ last. last.at ≡ at) }
        ensures start { IfOk result (λ last. at ≡ 0 → last.file ≡ file) }
        ensures place { IfOk result (λ last. 0 < at → IfSome (F.stream_position file.file) (λ _. F.stream_position last.file.file ≡ Some at)) }
    {
        let mut file = file;
        if at > 0 {
            file.seek(SeekFrom::Start(at))?;
        }
        Ok(OpenFile { path, file, at })
    }

    /// The next piece of the file: what its reader gives, nothing left out.
    pub(crate) fn piece(&mut self, room: &mut [u8]) -> io::Result<usize>
    where
        F: Read,
        ensures bound { IfOk result (λ n. n ≤ length room.old) }
        ensures bytes { ReadConsumes (F.remaining self.old.file.file) (F.remaining self.new.file.file) result room.new }
        ensures place { self.new.at ≡ moved_on self.old.at result }
        ensures path { self.new.path ≡ self.old.path }
    {
        let count = self.file.read(room)?;
        self.at = self.at.saturating_add(count as u64);
        Ok(count)
    }
}

impl<F> LastRead<F> {
    /// No file is open.
    pub(crate) fn none() -> LastRead<F>
        ensures { result.open ≡ None }
    {
        LastRead { open: None }
    }

    /// Keeps a file open.
    pub(crate) fn keep(&mut self, last: OpenFile<F>)
    where
        F: Drop,
        ensures { self.new.open ≡ Some last }
    {
        self.open = Some(last);
    }

    /// Gives up the open file, and answers it where it comes to this place, past the start, of the file at this path.
    pub(crate) fn take(&mut self, path: &str, at: u64) -> Option<OpenFile<F>>
    where
        F: Drop,
        ensures none { self.new.open ≡ None }
        ensures same { IfSome result (λ last. self.old.open ≡ Some last) }
        ensures path { IfSome result (λ last. string_bytes last.path ≡ path.now) }
        ensures place { IfSome result (λ last. (last.at ≡ at) × (0 < at)) }
    {
        if let Some(open) = self.open.take() {
            if at > 0 && open.at == at && open.path.as_str() == path {
                return Some(open);
            }
        }
        None
    }
}
