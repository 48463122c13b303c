//! The bytes of a report, which may be longer than other files, and the report that they are.
ghost use Rattle.std.specs.Prelude.{◌≡◌, ◌<◌, ◌≤◌, Some, Err, IfErr, IfOk, IfSome, IsNone, IsSomeAnd, length};
ghost use Rattle.net_io.specs.Faults.{Rose};
ghost use Rattle.net_io.specs.Files.{content};
ghost use Rattle.job_core.specs.Causes.{HasCause, WasRead};
ghost use Rattle.view_core.specs.Reports.{report_limit, GivesReport};
ghost use Rattle.view_core.specs.Views.{SaysReport};

use crate::faults::fault_line;
use crate::names::names_of;
use job_core::Stop;
use net_io::{Files, ReadFail};
use net_types::{Names, Section, Text};
use report_text::{ReportFail, read_report};
use std::alloc::Global;

/// A report that was read: its sections, and the names of their places.
#[derive(Drop)]
pub struct Reported {
    pub names: Names,
    pub sections: Vec<Section>,
}

/// The report that the bytes are, over the names that their own lines have; or the line at which they stop being one.
pub fn report_in(alloc: Global, path: &str, bytes: &[u8]) -> Result<Reported, Stop>
    ensures report { SaysReport path.now bytes.now result }
    ensures read { IfErr result WasRead }
{
    let names = names_of(alloc, bytes)?;
    match read_report(alloc, &names, bytes) {
        Ok(sections) => Ok(Reported { names, sections }),
        Err(ReportFail::NotReport) => {
            let line = fault_line(alloc, bytes)?;
            let none = Text::new(Vec::new(alloc));
            Err(Stop::refused(alloc, path, line, "", none)?)
        }
        Err(ReportFail::NoMemory) => Err(Stop::NoMemory),
    }
}

// The most bytes that a report may have.
const REPORT_LIMIT: usize = 268_435_456;

// The most bytes of one read.
const ROOM: usize = 65_536;

/// The bytes of a report, at most 268,435,456; or why there are none: it isn't there, it is longer, or a call on the files failed.
pub fn read_report_file<F: Files>(alloc: Global, files: &mut F, path: &str) -> Result<Vec<u8>, Stop>
    ensures bytes { IfSome (F.told files.old) (λ t. GivesReport (λ bytes. bytes.items) path.now (content t path.now) result) }
    ensures limit { IfOk result (λ bytes. length bytes.items ≤ report_limit) }
    ensures cause { HasCause (F.faults files.old) (F.faults files.new) result }
    ensures same { F.told files.new ≡ F.told files.old }
{
    match read_whole(alloc, files, path) {
        Ok(bytes) => Ok(bytes),
        Err(ReadFail::Failed) => Err(Stop::CannotRead {
            path: Text::copy_of(alloc, path.as_bytes())?,
        }),
        Err(ReadFail::TooLong) => Err(Stop::TooLong {
            path: Text::copy_of(alloc, path.as_bytes())?,
        }),
        Err(ReadFail::NoMemory) => Err(Stop::NoMemory),
        Err(ReadFail::Absent) => Err(Stop::NotFound {
            path: Text::copy_of(alloc, path.as_bytes())?,
        }),
    }
}

// Reads a whole report. Each answer is exact, but that a fault or want of memory may come in its place.
fn read_whole<F: Files>(alloc: Global, files: &mut F, path: &str) -> Result<Vec<u8>, ReadFail>
    ensures bytes { IfOk result (λ bytes. IfSome (F.told files.old) (λ t. content t path.now ≡ Some bytes.items)) }
    ensures limit { IfOk result (λ bytes. length bytes.items ≤ report_limit) }
    ensures too_long { result ≡ Err ReadFail.TooLong → IfSome (F.told files.old) (λ t. IsSomeAnd (content t path.now) (λ bytes. report_limit < length bytes)) }
    ensures absent { result ≡ Err ReadFail.Absent → IfSome (F.told files.old) (λ t. IsNone (content t path.now)) }
    ensures failed { result ≡ Err ReadFail.Failed → Rose (F.faults files.old) (F.faults files.new) }
    ensures same { F.told files.new ≡ F.told files.old }
    ensures later { F.faults files.old ≤ F.faults files.new }
{
    let mut room = [0u8; ROOM];
    let mut bytes = Vec::new(alloc);
    while bytes.len() <= REPORT_LIMIT {
        let count = files.read(path, bytes.len() as u64, &mut room)?;
        if count == 0 {
            return Ok(bytes);
        }
        bytes.extend_from_slice(&room[..count])?;
    }
    Err(ReadFail::TooLong)
}
