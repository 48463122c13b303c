//! A file of a job, read whole.

ghost use Rattle.std.specs.Prelude.{◌≡◌, ◌≤◌, IfErr, IfOk, IfSome, length};
ghost use Rattle.net_io.specs.Files.{content};
ghost use Rattle.net_io.specs.Limits.{file_limit};
ghost use Rattle.job_core.specs.Causes.{HasCause, NamesLast};
ghost use Rattle.job_core.specs.Steps.{GivesBytes};

use crate::stop::Stop;
use net_io::{Files, ReadFail, read_all};
use net_types::Text;
use std::alloc::Global;

/// The bytes of a file, at most 16,777,216; or why there are none: it isn't there, it is longer, or a call on the files failed.
pub fn read_bytes<F: Files>(alloc: Global, files: &mut F, path: &str) -> Result<Vec<u8>, Stop>
    ensures bytes { IfSome (F.told files.old) (λ t. GivesBytes (λ bytes. bytes.items) path.now (content t path.now) result) }
    ensures limit { IfOk result (λ bytes. length bytes.items ≤ file_limit) }
    ensures cause { HasCause (F.faults files.old) (F.faults files.new) result }
    ensures last { IfErr result (NamesLast (F.last files.new)) }
    ensures same { F.told files.new ≡ F.told files.old }
{
    match read_all(alloc, files, path) {
        Ok(bytes) => Ok(bytes),
        Err(ReadFail::Failed) => Err(Stop::CannotRead {
            path: Text::copy_of(alloc, path.as_bytes())?,
        }),
        Err(ReadFail::TooLong) => Err(Stop::TooLong {
            path: Text::copy_of(alloc, path.as_bytes())?,
        }),
        Err(ReadFail::NoMemory) => Err(Stop::NoMemory),
        Err(ReadFail::Absent) => Err(Stop::NotFound {
            path: Text::copy_of(alloc, path.as_bytes())?,
        }),
    }
}
