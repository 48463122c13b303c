//! A configuration's text, and what was found in it.
ghost use Rattle.std.specs.Prelude.{◌≡◌, IfOk, map};
ghost use Rattle.ios_config.specs.Passed.{passed_lines};
ghost use Rattle.ios_config.specs.Reads.{effects, refusal};
ghost use Rattle.doctor_warnings.specs.Readings.{config_by, config_in, refusal_in};

use crate::files::TextFile;
use ios_config::{Examination, PassedLine, Reading, Refusal, examine};
use net_types::{Loaded, NoMemory};
use std::alloc::Global;

/// A file with what it is read as, and with the lines that are passed over.
pub struct Examined {
    pub file: TextFile,
    pub passed: Vec<PassedLine>,
    pub reading: Result<Reading, Refusal>,
    ghost exact: { passed.items ≡ passed_lines file.bytes },
    ghost refused: { refusal_in reading ≡ refusal (effects file.bytes) },
    ghost loaded: { config_in reading ≡ config_by file.bytes },
}

impl Drop for Examined {
    fn drop(self) {
        let Examined {
            file: _,
            passed: _,
            reading: _,
        } = self;
    }
}

impl Examined {
    ghost use Rattle.doctor_warnings.specs.Tables.{device_of};

    /// The file's configuration, where it isn't refused.
    pub(crate) fn into_device(self) -> Option<Loaded>
        ensures { result ≡ device_of self.file }
    {
        let Examined {
            file,
            passed: _,
            reading,
        } = self;
        let TextFile { name, bytes: _ } = file;
        match reading {
            Ok(Reading { config, passed }) => Some(Loaded {
                file: name,
                config,
                passed,
            }),
            Err(_) => None,
        }
    }
}

/// What is found in each of the files.
pub(crate) fn examine_all(alloc: Global, files: Vec<TextFile>) -> Result<Vec<Examined>, NoMemory>
    ensures { IfOk result (λ examined. map (λ e. e.file) examined.items ≡ files.items) }
{
    let mut examined = Vec::with_capacity(alloc, files.len())?;
    for file in files {
        examined.push(examined_file(alloc, file)?)?;
    }
    Ok(examined)
}

fn examined_file(alloc: Global, file: TextFile) -> Result<Examined, NoMemory>
    ensures { IfOk result (λ e. e.file ≡ file) }
{
    let Examination { passed, reading } = examine(alloc, file.bytes.as_slice())?;
    Ok(Examined {
        file,
        passed,
        reading,
    })
}
