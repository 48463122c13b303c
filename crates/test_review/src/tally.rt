//! Runs, counted, and those among them that ended as they must.

use test_stop::Stop;

/// How many runs there were, and how many of them ended as they must.
#[derive(Drop)]
pub(crate) struct Tally {
    runs: u64,
    right: u64,
}

impl Tally {
    pub(crate) fn new() -> Tally {
        Tally { runs: 0, right: 0 }
    }

    /// One more run.
    pub(crate) fn note(&mut self, right: bool) {
        self.runs = self.runs.saturating_add(1);
        if right {
            self.right = self.right.saturating_add(1);
        }
    }

    pub(crate) fn show(&self, rt: &HostRuntime, name: &str) -> Result<(), Stop> {
        println!(rt; "{name}: {} of {}", self.right, self.runs)?;
        Ok(())
    }
}
