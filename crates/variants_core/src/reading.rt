//! The variants of a text, their files read and judged one after the other.

ghost use Rattle.std.specs.Prelude.{◌≡◌, ◌≤◌, ◌∷◌, ◌++◌, [], None, Some, IfErr, IfOk, IfSome, length};
ghost use Rattle.net_load.specs.Limits.{folder_limit};
ghost use Rattle.net_load.specs.Numbering.{folder_names};
ghost use Rattle.job_core.specs.Causes.{HasCause, NamesLast, WasRead};
ghost use Rattle.variants_core.specs.Taking.{IsReading, IsValue, Reads, Takes, TakesAll, begun, changes_of, nothing, so_far, variants_in};

use job_core::Stop;
use net_io::Files;
use net_types::{List, Loaded, NoMemory, Text};
use rollout_steps::StepLine;
use std::alloc::Global;
use variant_lines::VariantLine;
use window_core::{Base, Window};

/// A variant of a network.
#[derive(Drop)]
pub struct Variant {
    pub name: Text,
    /// The configurations that stand in the places of those of their hostnames, one after the other.
    pub changes: List<Loaded>,
}

/// The variants that are read so far.
#[derive(Drop)]
pub struct Reading {
    /// Those that are whole.
    pub done: List<Variant>,
    /// The name of the one that began last.
    pub name: Option<Text>,
    /// Its changes, with the network after them, and how many bytes all changed files have together.
    pub window: Window,
}

/// The variants of these lines, in order; or why there are none: the first line that is none. `path` is that of the lines.
pub(crate) fn take_all<F: Files>(
    alloc: Global,
    files: &mut F,
    path: &str,
    base: &Base,
    lines: &[VariantLine],
) -> Result<List<Variant>, Stop>
    ensures variants { IfSome (F.told files.old) (λ t. TakesAll t path.now base.now nothing lines.now result) }
    ensures names { IfOk result (λ variants. length (folder_names (changes_of variants)) ≤ folder_limit) }
    ensures cause { HasCause (F.faults files.old) (F.faults files.new) result }
    ensures last { IfErr result (NamesLast (F.last files.new)) }
    ensures same { F.told files.new ≡ F.told files.old }
{
    let mut reading = Reading::new(alloc, base)?;
    for line in lines {
        reading = match reading.take(alloc, files, path, base, line) {
            Ok(reading) => reading,
            Err(stop) => return Err(stop),
        };
    }
    Ok(reading.close()?)
}

impl Reading {
    // Nothing.
    fn new(alloc: Global, base: &Base) -> Result<Reading, NoMemory>
        ensures reading { IfOk result (IsReading base.now) }
        ensures nothing { IfOk result (λ r. so_far r ≡ nothing) }
    {
        Ok(Reading {
            done: List::empty(alloc),
            name: None,
            window: Window::new(alloc, base)?,
        })
    }

    // What is read with a line more.
    fn take<F: Files>(
        self,
        alloc: Global,
        files: &mut F,
        path: &str,
        base: &Base,
        line: &VariantLine,
    ) -> Result<Reading, Stop>
        requires { IsReading base.now self }
        ensures line { IfSome (F.told files.old) (λ t. Reads (Takes t path.now base.now (so_far self) line.now) result) }
        ensures reading { IfOk result (IsReading base.now) }
        ensures cause { HasCause (F.faults files.old) (F.faults files.new) result }
        ensures last { IfErr result (NamesLast (F.last files.new)) }
        ensures same { F.told files.new ≡ F.told files.old }
    {
        match line {
            VariantLine::Variant { name } => Ok(self.begin(alloc, base, name)?),
            VariantLine::Change { step } => self.change(alloc, files, path, base, step),
        }
    }

    // A variant begins.
    fn begin(self, alloc: Global, base: &Base, name: &Text) -> Result<Reading, NoMemory>
        requires { IsReading base.now self }
        ensures line { IfOk result (λ r. so_far r ≡ begun name.now (so_far self)) }
        ensures reading { IfOk result (IsReading base.now) }
    {
        let total = self.window.total;
        let done = self.close()?;
        let name = Text::copy_of(alloc, name.as_bytes())?;
        let mut window = Window::new(alloc, base)?;
        window.total = total;
        Ok(Reading {
            done,
            name: Some(name),
            window,
        })
    }

    // A change of the variant that began last.
    fn change<F: Files>(
        self,
        alloc: Global,
        files: &mut F,
        path: &str,
        base: &Base,
        step: &StepLine,
    ) -> Result<Reading, Stop>
        requires { IsReading base.now self }
        ensures line { IfSome (F.told files.old) (λ t. Reads (Takes t path.now base.now (so_far self) (VariantLine.Change step.now)) result) }
        ensures reading { IfOk result (IsReading base.now) }
        ensures cause { HasCause (F.faults files.old) (F.faults files.new) result }
        ensures last { IfErr result (NamesLast (F.last files.new)) }
        ensures same { F.told files.new ≡ F.told files.old }
    {
        let Reading { done, name, window } = self;
        match window.take(alloc, files, path, base, step) {
            Ok(window) => Ok(Reading { done, name, window }),
            Err(stop) => Err(stop),
        }
    }

    // The variants, with the one that began last.
    fn close(self) -> Result<List<Variant>, NoMemory>
        ensures { IfOk result (λ variants. variants ≡ variants_in (so_far self)) }
    {
        let Reading { done, name, window } = self;
        let Some(name) = name else {
            return Ok(done);
        };
        let Window {
            devices: _,
            changes,
            total: _,
        } = window;
        let mut variants = done;
        variants.push(Variant { name, changes })?;
        Ok(variants)
    }
}
