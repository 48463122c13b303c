//! What texts are read as, one by one or many by workers beside one another.
ghost use Rattle.std.specs.Prelude.{◌≡◌, ◌≤◌, List, None, All, IfOk, IfSome, length};
ghost use Rattle.net_io.specs.Limits.{file_limit};
ghost use Rattle.net_load.specs.declared.texts.FileText.{FileText};
ghost use Rattle.net_load.specs.Loader.{ReadsBytes};
ghost use Rattle.net_load.specs.Numbering.{config_names};
ghost use Rattle.net_load.specs.Texts.{AreReadings, AreSmall, IsReadAt, IsShareOf, TakesAt};

use crate::folder::LoadFail;
use crate::texts::FileText;
use ios_config::{ConfigFail, Reading, read_config};
use net_types::{Duplicate, NoMemory};
use std::alloc::Global;
use std::thread::{Threads, map_indices};

// Fewer bytes than these are read by one: a thread takes longer to start.
const LEAST: usize = 131_072;

/// What the text at this position is read as.
#[derive(Drop)]
pub struct ReadAt {
    pub at: usize,
    pub reading: Result<Reading, LoadFail>,
}

/// The configuration that a text says, or why it says none.
pub(crate) fn read_text(alloc: Global, text: &FileText) -> Result<Reading, LoadFail>
    requires { length text.now.bytes.items ≤ file_limit }
    ensures reads { ReadsBytes text.now.path text.now.bytes.items result }
    ensures names { IfOk result (λ r. length (config_names r.config) ≤ length text.now.bytes.items) }
{
    match read_config(alloc, &text.bytes) {
        Ok(reading) => Ok(reading),
        Err(ConfigFail::NoMemory) => Err(LoadFail::NoMemory),
        Err(ConfigFail::Refused { refusal }) => Err(LoadFail::Refused {
            path: text.path.copy(alloc)?,
            refusal,
        }),
    }
}

/// Takes out what is known of the text at this position.
pub(crate) fn take_reading(
    known: &mut Vec<Option<Result<Reading, LoadFail>>>,
    at: usize,
) -> Option<Result<Reading, LoadFail>>
    ensures { TakesAt at known.old.items known.new.items result }
{
    match known.get_mut(at) {
        Some(reading) => reading.take(),
        None => None,
    }
}

/// What the texts are read as by their positions, found by so many workers; of one that isn't found nothing is known.
pub(crate) fn read_by_workers<R: Threads + Sync>(
    rt: &R,
    alloc: Global,
    workers: usize,
    texts: &[FileText],
) -> Result<Vec<Option<Result<Reading, LoadFail>>>, NoMemory>
    requires { AreSmall texts.now }
    ensures { IfOk result (λ known. AreReadings texts.now known.items) }
{
    let mut known = nothing_known(alloc, texts.len())?;
    if workers < 2 || !are_worth_it(texts) {
        return Ok(known);
    }
    let shares = shares_of(rt, alloc, workers, texts)?;
    add_shares(shares, &mut known);
    Ok(known)
}

// What each of the workers reads.
fn shares_of<R: Threads + Sync>(
    rt: &R,
    alloc: Global,
    workers: usize,
    texts: &[FileText],
) -> Result<Vec<Option<Vec<ReadAt>>>, NoMemory>
    requires { AreSmall texts.now }
    ensures { IfOk result (λ shares. All (IsShareOf texts.now) shares.items) }
{
    let read = move |worker: usize| -> Option<Vec<ReadAt>>
        requires { AreSmall texts.now }
        ensures { IsShareOf texts.entry.now result }
    { share_of(alloc, texts, worker, workers) };
    // No worker without a text.
    let shares = map_indices(rt, alloc, texts.len().min(workers), &read)?;
    Ok(shares)
}

// Whether the texts are enough for more than one worker.
fn are_worth_it(texts: &[FileText]) -> bool {
    let mut total: usize = 0;
    for text in texts {
        total = total.saturating_add(text.bytes.len());
    }
    total >= LEAST
}

// Nothing of so many texts.
fn nothing_known(
    alloc: Global,
    count: usize,
) -> Result<Vec<Option<Result<Reading, LoadFail>>>, NoMemory>
    ensures { IfOk result (λ known. All (λ reading. reading ≡ None) known.items) }
{
    let mut known = Vec::with_capacity(alloc, count)?;
    for _ in 0..count {
        known.push(None)?;
    }
    Ok(known)
}

// What this worker reads: each text in its turn, where there is memory for them.
fn share_of(alloc: Global, texts: &[FileText], worker: usize, workers: usize) -> Option<Vec<ReadAt>>
    requires { AreSmall texts.now }
    ensures { IsShareOf texts.now result }
{
    match read_share(alloc, texts, worker, workers) {
        Ok(share) => Some(share),
        Err(_) => None,
    }
}

fn read_share(
    alloc: Global,
    texts: &[FileText],
    worker: usize,
    workers: usize,
) -> Result<Vec<ReadAt>, NoMemory>
    requires { AreSmall texts.now }
    ensures { IfOk result (λ share. All (IsReadAt texts.now) share.items) }
{
    let mut share = Vec::new(alloc);
    for at in 0..texts.len() {
        if at.checked_rem(workers) != Some(worker) {
            continue;
        }
        share.push(ReadAt {
            at,
            reading: read_text(alloc, &texts[at]),
        })?;
    }
    Ok(share)
}

// Adds what the workers read; nothing of one who had no memory.
fn add_shares(
    mut shares: Vec<Option<Vec<ReadAt>>>,
    known: &mut Vec<Option<Result<Reading, LoadFail>>>,
)
    ensures { (texts : List FileText) → All (IsShareOf texts) shares.items → AreReadings texts known.old.items → AreReadings texts known.new.items }
{
    while let Some(share) = shares.pop() {
        if let Some(share) = share {
            add_share(share, known);
        }
    }
}

// Adds what one worker read.
fn add_share(mut share: Vec<ReadAt>, known: &mut Vec<Option<Result<Reading, LoadFail>>>)
    ensures { (texts : List FileText) → All (IsReadAt texts) share.items → AreReadings texts known.old.items → AreReadings texts known.new.items }
{
    while let Some(read) = share.pop() {
        put(read, known);
    }
}

fn put(read: ReadAt, known: &mut Vec<Option<Result<Reading, LoadFail>>>)
    ensures { (texts : List FileText) → IsReadAt texts read → AreReadings texts known.old.items → AreReadings texts known.new.items }
{
    if read.at < known.len() {
        known[read.at] = Some(read.reading);
    }
}
