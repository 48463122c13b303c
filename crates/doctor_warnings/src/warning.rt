//! What is told.
ghost use Rattle.std.specs.Prelude.{◌≡◌, ◌++◌, ◌∷◌, [], filter, IfOk, OnOk};
ghost use Rattle.doctor_warnings.specs.Warnings.{is_reason, is_warning};

use config_checks::ConfigFinding;
use look_alikes::LookAlike;
use net_types::{NoMemory, Text};
use place_checks::{PlaceFinding, StrayNext};
use std::alloc::Global;

/// Why a line that is passed over is told.
#[derive(Clone, Copy, Debug, PartialEq, Eq)]
pub enum Reason {
    /// It looks like a command that isn't passed over.
    Looks { look: LookAlike },
    /// The other folder's file of the same name hasn't this line, or not so often.
    OnlyHere,
    /// The same, and the way of no packet depends on the line.
    Idle,
}

/// Something to look at before a comparison is believed.
pub enum Warning {
    /// The folder has no file that is read.
    NoConfigs {
        folder: Text,
    },
    /// A file isn't read: its name doesn't end in `.cfg`.
    Unread {
        path: Text,
    },
    /// The other folder has no file of this one's name.
    OneFolder {
        path: Text,
    },
    /// A file is refused, since an earlier one of its folder has its hostname.
    HostTaken {
        path: Text,
        first: Text,
    },
    /// A configuration or a link table is refused.
    Refused {
        path: Text,
        /// From 1; 0 where the file as a whole is refused.
        line: u32,
        kind: Text,
        /// The word that decides, at most its first 64 bytes.
        word: Text,
        /// The line, up to its last word.
        text: Text,
    },
    /// A line is passed over.
    Passed {
        path: Text,
        /// From 1.
        line: u64,
        reason: Reason,
        /// The line, up to its last word.
        text: Text,
    },
    /// Something is odd in a configuration.
    Config {
        path: Text,
        finding: ConfigFinding,
    },
    /// A place is worth a look.
    Place {
        /// That of the link table.
        path: Text,
        /// Whether there are two networks.
        two: bool,
        finding: PlaceFinding,
    },
    /// A route's next hop is on a lan of which no end has it.
    Stray {
        /// That of the link table.
        path: Text,
        /// Whether there are two networks.
        two: bool,
        next: StrayNext,
    },
}

impl Drop for Warning {
    fn drop(self) {
        match self {
            Warning::NoConfigs { folder: _ } => {}
            Warning::Unread { path: _ } => {}
            Warning::OneFolder { path: _ } => {}
            Warning::HostTaken { path: _, first: _ } => {}
            Warning::Refused {
                path: _,
                line: _,
                kind: _,
                word: _,
                text: _,
            } => {}
            Warning::Passed {
                path: _,
                line: _,
                reason: _,
                text: _,
            } => {}
            Warning::Config {
                path: _,
                finding: _,
            } => {}
            Warning::Place {
                path: _,
                two: _,
                finding: _,
            } => {}
            Warning::Stray {
                path: _,
                two: _,
                next: _,
            } => {}
        }
    }
}

impl Warning {
    ghost use Rattle.doctor_warnings.specs.Warnings.{is_warning};

    /// Whether it is told by itself: a line on which the way of no packet depends is only counted.
    fn is_warning(&self) -> bool
        ensures { result ≡ is_warning self.now }
    {
        match self {
            Warning::Passed {
                path: _,
                line: _,
                reason,
                text: _,
            } => is_reason(*reason),
            _ => true,
        }
    }
}

/// Whether a line that is passed over for this reason is told by itself.
fn is_reason(reason: Reason) -> bool
    ensures { result ≡ is_reason reason }
{
    match reason {
        Reason::Looks { look: _ } => true,
        Reason::OnlyHere => true,
        Reason::Idle => false,
    }
}

/// The warnings without what is only counted.
pub(crate) fn without_counted(alloc: Global, found: Vec<Warning>) -> Result<Vec<Warning>, NoMemory>
    ensures { IfOk result (λ warnings. warnings.items ≡ filter is_warning found.items) }
{
    let mut warnings = Vec::with_capacity(alloc, found.len())?;
    for warning in found {
        if warning.is_warning() {
            warnings.push(warning)?;
        }
    }
    Ok(warnings)
}

/// Adds a warning.
pub(crate) fn tell(warnings: &mut Vec<Warning>, warning: Warning) -> Result<(), NoMemory>
    ensures { OnOk result (warnings.new.items ≡ warnings.old.items ++ warning ∷ []) }
{
    warnings.push(warning)?;
    Ok(())
}
