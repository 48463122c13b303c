//! The files of the system, as files that tell nothing. The file that was read last stays open for its next piece.

ghost use Rattle.std.specs.Prelude.{◌≡◌, ◌≤◌, IfOk, None, length};
ghost use Rattle.std.specs.IoError.{error_kind};
ghost use Rattle.net_io.specs.Faults.{Rose, IsLast, HasCause, MarksLast};
ghost use Rattle.net_io.specs.RealFiles.{fail_of, GivenByRead, IsOpenAt};
ghost use Rattle.net_io.specs.declared.reading.FileFail.TheVariants as file;

use crate::entry_names::names_of;
use crate::open_file::{LastRead, OpenFile};
use crate::read_only::ReadOnlySystem;
use crate::{FileFail, Files};
use std::alloc::Global;
use std::io::ErrorKind;
use std::marker::Model;
use std::{io, rt};

/// The files of the system. They tell nothing of what they hold.
///
/// `Absent` comes where the system says that the path isn't found. Every other error is a fault, but
/// want of memory, and so is a listed name that isn't UTF-8.
#[derive(Drop)]
pub struct RealFiles<R: rt::Files> {
    system: ReadOnlySystem<R>,
    last_read: LastRead<R::File>,
    faults: u64,
    // The path of the call that failed last, where there was memory for it.
    last: Option<String>,
}

// A contract sees them as their faults.
impl<R: rt::Files> Model for RealFiles<R> {
    ghost use Rattle.std.specs.Prelude.{option_map, string_bytes};
    ghost use Rattle.net_io.specs.RealFiles.{FaultsSoFar};

    ghost Value = { FaultsSoFar };

    ghost view = { λ f. record { count = f.faults; last = option_map string_bytes f.last } };
}

impl<R: rt::Files + AllocGlobal + Clone + Drop> RealFiles<R> {
    /// The files that this runtime reaches, with no fault so far.
    pub fn new(rt: R) -> RealFiles<R>
        ensures { result ≡ record { count = 0; last = None } }
    {
        RealFiles {
            system: ReadOnlySystem::new(rt),
            last_read: LastRead::none(),
            faults: 0,
            last: None,
        }
    }

    fn names(&self, alloc: Global, path: &str) -> io::Result<Vec<String>> {
        names_of(alloc, self.system.entries(path)?)
    }

    fn piece(&mut self, path: &str, at: u64, room: &mut [u8]) -> io::Result<usize>
        ensures bound { IfOk result (λ n. n ≤ length room.old) }
        ensures given { IfOk result (λ n. GivenByRead R.File.Read.remaining n room.new) }
        ensures faults { self.new ≡ self.old }
    {
        let mut open = self.open_at(path, at)?;
        let count = open.piece(room)?;
        if count > 0 {
            self.last_read.keep(open);
        }
        Ok(count)
    }

    fn open_at(&mut self, path: &str, at: u64) -> io::Result<OpenFile<R::File>>
        ensures place { IfOk result (λ last. IsOpenAt path.now at last) }
        ensures faults { self.new ≡ self.old }
    {
        if let Some(open) = self.last_read.take(path, at) {
            return Ok(open);
        }
        let path_kept = path.to_string(self.system.alloc())?;
        OpenFile::opened(path_kept, self.system.open(path)?, at)
    }

    // The cause that an error of a call on this path is; a fault is counted.
    fn cause(&mut self, path: &str, error: &io::Error) -> FileFail
        ensures kind { result ≡ fail_of (error_kind error.now) }
        ensures later { self.old.count ≤ self.new.count }
        ensures failed { result ≡ file.Failed → Rose self.old.count self.new.count × IsLast path.now self.new.last }
        ensures other { (result ≡ file.Failed → ⊥) → self.new ≡ self.old }
    {
        match error.kind() {
            ErrorKind::NotFound => FileFail::Absent,
            ErrorKind::OutOfMemory => FileFail::NoMemory,
            _ => {
                self.faults = self.faults.saturating_add(1);
                self.last = path.to_string(self.system.alloc()).ok();
                FileFail::Failed
            }
        }
    }
}

impl<R: rt::Files + AllocGlobal + Clone + Drop> Files for RealFiles<R> {
    ghost told = { λ _. None };

    ghost faults = { λ f. f.count };

    ghost last = { λ f. f.last };

    fn list(&mut self, alloc: Global, path: &str) -> Result<Vec<String>, FileFail> {
        match self.names(alloc, path) {
            Ok(names) => Ok(names),
            Err(error) => Err(self.cause(path, &error)),
        }
    }

    fn read(&mut self, path: &str, at: u64, room: &mut [u8]) -> Result<usize, FileFail>
        ensures bound { IfOk result (λ n. n ≤ length room.old) }
        ensures given { IfOk result (λ n. GivenByRead R.File.Read.remaining n room.new) }
        ensures cause { HasCause self.old.count self.new.count result }
        ensures last { MarksLast path.now self.old.last self.new.last result }
    {
        match self.piece(path, at, room) {
            Ok(count) => Ok(count),
            Err(error) => Err(self.cause(path, &error)),
        }
    }
}
