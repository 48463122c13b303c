//! The system of which only reading is left: its folders are listed and its files opened to be read, and nothing here can write.

ghost use Rattle.std.specs.Io.{ReadsAtMost};
ghost use Rattle.std.specs.Io.KnownBytes.{ReadConsumes, Keeps};
ghost use Rattle.std.specs.Io.Seek.{SeekMoves};

use std::alloc::Global;
use std::fs::ReadDir;
use std::io::{Read, Seek, SeekFrom};
use std::{fs, io, rt};

/// A runtime of which only reading is left. No other file reaches the runtime itself.
#[derive(Drop)]
pub(crate) struct ReadOnlySystem<R> {
    rt: R,
}

/// An open file of which only reading is left. No other file reaches the open file itself.
#[derive(Drop)]
pub(crate) struct ReadOnlyFile<F> {
    file: F,
}

impl<R: rt::Files + AllocGlobal + Clone + Drop> ReadOnlySystem<R> {
    pub(crate) fn new(rt: R) -> ReadOnlySystem<R> {
        ReadOnlySystem { rt }
    }

    pub(crate) fn alloc(&self) -> Global {
        self.rt.alloc()
    }

    /// The entries of a folder, as the system gives them.
    pub(crate) fn entries(&self, path: &str) -> io::Result<ReadDir<R, Global>> {
        fs::read_dir(&self.rt, path)
    }

    /// Opens a file to be read.
    pub(crate) fn open(&self, path: &str) -> io::Result<ReadOnlyFile<R::File>> {
        let file = fs::open(&self.rt, path)?;
        Ok(ReadOnlyFile { file })
    }
}

impl<F: Read> Read for ReadOnlyFile<F> {
    ghost remaining = { λ f. F.remaining f.file };

    fn read(&mut self, room: &mut [u8]) -> io::Result<usize> {
        self.file.read(room)
    }
}

impl<F: Seek> Seek for ReadOnlyFile<F> {
    ghost stream_position = { λ f. F.stream_position f.file };

    ghost stream_bytes = { λ f. F.stream_bytes f.file };

    fn seek(&mut self, to: SeekFrom) -> io::Result<u64> {
        self.file.seek(to)
    }
}
