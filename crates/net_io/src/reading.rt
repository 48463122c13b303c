//! What it is to be files that are read: the trait, with the causes of failure, and the reading of a whole file.

ghost use Rattle.std.specs.Prelude.{◌≡◌, ℕ, ◌<◌, ◌≤◌, List, Option, Some, Err};
ghost use Rattle.std.specs.Prelude.{IfOk, IfSome, IsSome, IsNone, IsSomeAnd, IsTrue, length, map, string_bytes};
ghost use Rattle.net_io.specs.Faults.{Rose, HasCause, IsLast, MarksLast};
ghost use Rattle.net_io.specs.Limits.{file_limit};
ghost use Rattle.net_io.specs.Files.{Told, content, has_folder, IsListing, IsPiece, IsAbsentUnless};

use std::alloc::{AllocError, Global};

/// Why a call of [`Files`] gave nothing.
#[derive(Clone, Copy, Debug, PartialEq, Eq)]
pub enum FileFail {
    /// The files failed, and counted a fault.
    Failed,
    /// There is no such folder, or no such file.
    Absent,
    /// There was no memory for the answer.
    NoMemory,
}

impl From<AllocError> for FileFail {
    ghost use Rattle.net_io.specs.declared.reading.FileFail.TheVariants as file;

    ghost from_gives = { λ _ fail. fail ≡ file.NoMemory };

    fn from(_: AllocError) -> Self {
        FileFail::NoMemory
    }
}

/// Folders and files to read.
///
/// A path is text. The file NAME of the folder PATH is at the path `PATH/NAME`. What stands at the paths
/// is told or not, and no call changes it. A count of faults never falls, and the path of the last fault is that of
/// the last call that answered `Failed`.
pub trait Files {
    /// What the files hold, where it is told.
    ghost told: { Self → Option Told };

    /// How often a call has failed.
    ghost faults: { Self → ℕ };

    /// The path of the call that failed last, where it is told.
    ghost last: { Self → Option (List ℕ) };

    /// The names in a folder: each once, in any order, those without '/' that have a file at `PATH/NAME`.
    ///
    /// `Failed` comes only where the count of faults rose. Where the files are told, `Absent` comes only
    /// where the folder isn't there, and `Ok` only where it is.
    fn list(&mut self, alloc: Global, path: &str) -> Result<Vec<String>, FileFail>
        ensures same { told self.new ≡ told self.old }
        ensures names { IfOk result (λ names. IfSome (told self.old) (λ t. IsListing t path.now (map string_bytes names.items))) }
        ensures absent { IfSome (told self.old) (λ t. IsAbsentUnless (IsTrue (has_folder t path.now)) result) }
        ensures cause { HasCause (faults self.old) (faults self.new) result }
        ensures last { MarksLast path.now (last self.old) (last self.new) result };

    /// Puts bytes of a file, those from the place `at` on (from 0), into the room, and answers how many.
    ///
    /// It may put fewer than there is room for, but puts none only at the end of the file or where there
    /// is no room. `Failed` comes only where the count of faults rose. Where the files are told, `Absent`
    /// comes only where the file isn't there, and `Ok` only where it is.
    fn read(&mut self, path: &str, at: u64, room: &mut [u8]) -> Result<usize, FileFail>
        ensures same { told self.new ≡ told self.old }
        ensures bound { IfOk result (λ n. n ≤ length room.old) }
        ensures piece { IfOk result (λ n. IfSome (told self.old) (λ t. IfSome (content t path.now) (λ bytes. IsPiece bytes at room.new n))) }
        ensures more { IfOk result (λ n. IfSome (told self.old) (λ t. IfSome (content t path.now) (λ bytes. at < length bytes → 0 < length room.old → 0 < n))) }
        ensures absent { IfSome (told self.old) (λ t. IsAbsentUnless (IsSome (content t path.now)) result) }
        ensures cause { HasCause (faults self.old) (faults self.new) result }
        ensures last { MarksLast path.now (last self.old) (last self.new) result };
}

/// Why a whole file wasn't read.
#[derive(Clone, Copy, Debug, PartialEq, Eq)]
pub enum ReadFail {
    /// The files failed, and counted a fault.
    Failed = 1,
    /// The file has more than 16,777,216 bytes.
    TooLong = 2,
    /// There was no memory for the bytes.
    NoMemory = 3,
    /// There is no such file.
    Absent = 4,
}

impl From<FileFail> for ReadFail {
    ghost use Rattle.net_io.specs.ReadFail.{read_fail_of};

    ghost from_gives = { λ cause fail. fail ≡ read_fail_of cause };

    fn from(cause: FileFail) -> Self {
        match cause {
            FileFail::Failed => ReadFail::Failed,
            FileFail::Absent => ReadFail::Absent,
            FileFail::NoMemory => ReadFail::NoMemory,
        }
    }
}

impl From<AllocError> for ReadFail {
    ghost use Rattle.net_io.specs.declared.reading.ReadFail.TheVariants as read;

    ghost from_gives = { λ _ fail. fail ≡ read.NoMemory };

    fn from(_: AllocError) -> Self {
        ReadFail::NoMemory
    }
}

// The most bytes that a file may have.
const FILE_LIMIT: usize = 16_777_216;

// The most bytes of one read.
const ROOM: usize = 65_536;

/// Reads a whole file, of at most 16,777,216 bytes.
///
/// Each answer is exact, but that a fault or want of memory may come in its place: where the files are
/// told, `Ok` has the file's bytes, `TooLong` comes where the file has more than 16,777,216 bytes, and
/// `Absent` where it isn't there. An `Ok` is within the limit also where nothing is told.
pub fn read_all<F: Files>(alloc: Global, files: &mut F, path: &str) -> Result<Vec<u8>, ReadFail>
    ensures bytes { IfOk result (λ bytes. IfSome (F.told files.old) (λ t. content t path.now ≡ Some bytes.items)) }
    ensures limit { IfOk result (λ bytes. length bytes.items ≤ file_limit) }
    ensures too_long { result ≡ Err ReadFail.TooLong → IfSome (F.told files.old) (λ t. IsSomeAnd (content t path.now) (λ bytes. file_limit < length bytes)) }
    ensures absent { result ≡ Err ReadFail.Absent → IfSome (F.told files.old) (λ t. IsNone (content t path.now)) }
    ensures failed { result ≡ Err ReadFail.Failed → Rose (F.faults files.old) (F.faults files.new) }
    ensures last { result ≡ Err ReadFail.Failed → IsLast path.now (F.last files.new) }

    ensures same { F.told files.new ≡ F.told files.old }
    ensures later { F.faults files.old ≤ F.faults files.new }
{
    let mut room = [0u8; ROOM];
    let mut bytes = Vec::new(alloc);
    while bytes.len() <= FILE_LIMIT {
        let count = files.read(path, bytes.len() as u64, &mut room)?;
        if count == 0 {
            return Ok(bytes);
        }
        bytes.extend_from_slice(&room[..count])?;
    }
    Err(ReadFail::TooLong)
}
