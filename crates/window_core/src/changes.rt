//! The changes of a window, read and judged one after the other.

ghost use Rattle.std.specs.Prelude.{◌≡◌, ◌≤◌, ◌+◌, ◌∷◌, ◌++◌, [], IfErr, IfOk, IfSome, length};
ghost use Rattle.net_load.specs.Limits.{folder_limit};
ghost use Rattle.net_load.specs.Numbering.{config_names, folder_names};
ghost use Rattle.job_core.specs.Causes.{HasCause, NamesLast, WasRead};
ghost use Rattle.window_core.specs.Changes.{GivesChange, GivesChanges, Judges};
ghost use Rattle.window_core.specs.Job.{GivesWindow};
ghost use Rattle.window_core.specs.Window.{AddsNames, Grows, IsWindow};

use crate::base::Base;
use crate::change::{Change, read_change};
use crate::judging::{judge, replaced};
use crate::reading::read_lines;
use job_core::Stop;
use net_io::Files;
use net_types::{List, Loaded, NoMemory};
use rollout_steps::StepLine;
use std::alloc::Global;

/// The changes that are read so far.
#[derive(Drop)]
pub struct Window {
    /// The network after them.
    pub devices: Vec<Loaded>,
    pub changes: List<Loaded>,
    /// How many bytes their files have together.
    pub total: usize,
}

// The changes of the steps, in order; or why there are none: the first step that is none. `path` is that of the window.
fn read_changes<F: Files>(
    alloc: Global,
    files: &mut F,
    path: &str,
    base: &Base,
    steps: &[StepLine],
) -> Result<List<Loaded>, Stop>
    ensures changes { IfSome (F.told files.old) (λ t. GivesChanges t path.now base.now [] 0 steps.now result) }
    ensures names { IfOk result (λ changes. length (folder_names changes) ≤ folder_limit) }
    ensures few { IfOk result (λ changes. length changes ≤ folder_limit) }
    ensures cause { HasCause (F.faults files.old) (F.faults files.new) result }
    ensures last { IfErr result (NamesLast (F.last files.new)) }
    ensures same { F.told files.new ≡ F.told files.old }
{
    let mut window = Window::new(alloc, base)?;
    for step in steps {
        window = match window.take(alloc, files, path, base, step) {
            Ok(window) => window,
            Err(stop) => return Err(stop),
        };
    }
    Ok(window.changes)
}

/// The changes of the steps of a file.
pub(crate) fn read_window<F: Files>(
    alloc: Global,
    files: &mut F,
    path: &str,
    base: &Base,
) -> Result<List<Loaded>, Stop>
    ensures changes { IfSome (F.told files.old) (λ t. GivesWindow t path.now base.now result) }
    ensures names { IfOk result (λ changes. length (folder_names changes) ≤ folder_limit) }
    ensures few { IfOk result (λ changes. length changes ≤ folder_limit) }
    ensures cause { HasCause (F.faults files.old) (F.faults files.new) result }
    ensures last { IfErr result (NamesLast (F.last files.new)) }
    ensures same { F.told files.new ≡ F.told files.old }
{
    match read_lines(alloc, files, path) {
        Ok(lines) => read_changes(alloc, files, path, base, lines.as_slice()),
        Err(stop) => Err(stop),
    }
}

impl Window {
    /// No change.
    pub fn new(alloc: Global, base: &Base) -> Result<Window, NoMemory>
        ensures window { IfOk result (IsWindow base.now) }
        ensures changes { IfOk result (λ w. w.changes ≡ []) }
        ensures total { IfOk result (λ w. w.total ≡ 0) }
    {
        Ok(Window {
            devices: base.devices.copy_items(alloc)?.into_vec(),
            changes: List::empty(alloc),
            total: 0,
        })
    }

    /// The window with the change of a step. `path` is that of the window.
    pub fn take<F: Files>(
        self,
        alloc: Global,
        files: &mut F,
        path: &str,
        base: &Base,
        step: &StepLine,
    ) -> Result<Window, Stop>
        requires { IsWindow base.now self }
        ensures change { IfSome (F.told files.old) (λ t. Grows (GivesChange t path.now base.now self.changes self.total step.now) self.changes result) }
        ensures window { IfOk result (IsWindow base.now) }
        ensures names { IfOk result (AddsNames self) }
        ensures cause { HasCause (F.faults files.old) (F.faults files.new) result }
        ensures last { IfErr result (NamesLast (F.last files.new)) }
        ensures same { F.told files.new ≡ F.told files.old }
    {
        match read_change(alloc, files, path, self.total, step) {
            Ok(change) => self.with(alloc, path, step.line, base, change),
            Err(stop) => Err(stop),
        }
    }

    // The window with a change, where that is one of the base and leaves no address twice.
    fn with(
        self,
        alloc: Global,
        path: &str,
        line: u32,
        base: &Base,
        change: Change,
    ) -> Result<Window, Stop>
        requires window { IsWindow base.now self }
        requires names { self.total + length (config_names change.device.config) ≤ change.total }
        requires total { change.total ≤ folder_limit }
        ensures change { Grows (Judges path.now base.now self.changes line change) self.changes result }
        ensures window { IfOk result (IsWindow base.now) }
        ensures names { IfOk result (AddsNames self) }
        ensures read { IfErr result WasRead }
    {
        let Window {
            devices,
            changes,
            total: _,
        } = self;
        let devices = replaced(alloc, devices, &change.device)?;
        match judge(alloc, path, line, base, &devices, &change.device) {
            Ok(()) => Ok(grown(devices, changes, change)?),
            Err(stop) => Err(stop),
        }
    }
}

// The window with a change more.
fn grown(devices: Vec<Loaded>, changes: List<Loaded>, change: Change) -> Result<Window, NoMemory>
    ensures devices { IfOk result (λ w. w.devices ≡ devices) }
    ensures changes { IfOk result (λ w. w.changes ≡ changes ++ change.device ∷ []) }
    ensures total { IfOk result (λ w. w.total ≡ change.total) }
{
    let Change { device, total } = change;
    let mut changes = changes;
    changes.push(device)?;
    Ok(Window {
        devices,
        changes,
        total,
    })
}
