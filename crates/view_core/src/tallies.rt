//! How many groups and rows have an outcome.

ghost use Rattle.std.specs.Prelude.{ℕ, List, [], ◌∷◌, ◌≡◌, ◌++◌, map, IfOk, OnOk};
ghost use Rattle.topo_links.specs.Names.{add_names, sorted_names};
ghost use Rattle.view_core.specs.Tallies.{version_words, outcomes_in, mention_of, mention_in, group_mentions, ingress_mentions, mentions, raised, tally, tallies};
ghost use Rattle.view_core.specs.Counts.{AreCounts, kept_count, tally_with};

use crate::ingresses::Ingress;
use indexmap::IndexMap;
use net_types::{List, Names, NoMemory, Outcome, Text};
use report_groups::Entry;
use report_text::outcome_bytes;
use std::alloc::Global;
use topo_links::NameIndex;

/// Which of the two networks.
#[derive(Clone, Copy, Debug, PartialEq, Eq)]
pub enum Version {
    New,
    Old,
}

/// How many groups have an outcome, and for how many rows they stand.
#[derive(Clone, Copy, Debug, PartialEq, Eq)]
pub struct Count {
    pub groups: u64,
    pub rows: u64,
}

/// That a group, which stands for so many rows, has an outcome with this text.
#[derive(Drop)]
pub(crate) struct Mention {
    pub(crate) text: Text,
    pub(crate) rows: u64,
}

/// The count of an outcome in one version of the network.
#[derive(Drop)]
pub struct Tally {
    pub version: Version,
    pub text: Text,
    pub count: Count,
}

/// Counts by the text of an outcome.
#[derive(Drop)]
pub(crate) struct Counts {
    pub(crate) counts: IndexMap<Vec<u8>, Count>,
}

impl Counts {
    fn get(&self, text: &[u8]) -> Count
        ensures { result ≡ kept_count self.now text.now }
    {
        match self.counts.get(text) {
            Some(count) => *count,
            None => Count { groups: 0, rows: 0 },
        }
    }
}

/// What a version of the network is called.
pub(crate) fn version_name(version: Version) -> &'static [u8]
    ensures { result.now ≡ version_words version }
{
    match version {
        Version::New => b"new",
        Version::Old => b"old",
    }
}

/// The outcomes in the new network, then those in the old one, each in the order of their texts.
#[tactic(auto, unfolding(crate::specs::Tallies::tallies))]
pub(crate) fn tallies_of(
    alloc: Global,
    names: &Names,
    ingresses: &[Ingress],
) -> Result<Vec<Tally>, NoMemory>
    ensures { IfOk result (λ found. found.items ≡ tallies names.now ingresses.now) }
{
    let mut found = Vec::new(alloc);
    add_tally(alloc, &mut found, names, Version::New, ingresses)?;
    add_tally(alloc, &mut found, names, Version::Old, ingresses)?;
    Ok(found)
}

fn add_tally(
    alloc: Global,
    found: &mut Vec<Tally>,
    names: &Names,
    version: Version,
    ingresses: &[Ingress],
) -> Result<(), NoMemory>
    ensures { OnOk result (found.new.items ≡ found.old.items ++ tally version (mentions names.now version ingresses.now)) }
{
    let mentioned = mentions_of(alloc, names, version, ingresses)?;
    let counts = counts_of(alloc, &mentioned)?;
    let texts = texts_of(alloc, &mentioned)?;
    add_counted(alloc, found, version, texts.as_slice(), &counts)?;
    Ok(())
}

// All outcomes of all groups.
fn mentions_of(
    alloc: Global,
    names: &Names,
    version: Version,
    ingresses: &[Ingress],
) -> Result<Vec<Mention>, NoMemory>
    ensures { IfOk result (λ found. map mention_in found.items ≡ mentions names.now version ingresses.now) }
{
    let mut found = Vec::new(alloc);
    for ingress in ingresses {
        add_ingress(alloc, &mut found, names, version, ingress)?;
    }
    Ok(found)
}

fn add_ingress(
    alloc: Global,
    found: &mut Vec<Mention>,
    names: &Names,
    version: Version,
    ingress: &Ingress,
) -> Result<(), NoMemory>
    ensures { OnOk result (map mention_in found.new.items ≡ map mention_in found.old.items ++ ingress_mentions names.now version ingress.now) }
{
    let groups = ingress.groups.as_slice();
    for entry in groups {
        add_group(alloc, found, names, version, entry)?;
    }
    Ok(())
}

fn add_group(
    alloc: Global,
    found: &mut Vec<Mention>,
    names: &Names,
    version: Version,
    entry: &Entry,
) -> Result<(), NoMemory>
    ensures { OnOk result (map mention_in found.new.items ≡ map mention_in found.old.items ++ group_mentions names.now version entry.now) }
{
    add_outcomes(alloc, found, names, entry.rows, outcomes_in(version, entry))
}

fn outcomes_in(version: Version, entry: &Entry) -> &[Outcome]
    ensures { result.now ≡ outcomes_in version entry.now }
{
    match version {
        Version::New => entry.group.new.as_slice(),
        Version::Old => entry.group.old.as_slice(),
    }
}

fn add_outcomes(
    alloc: Global,
    found: &mut Vec<Mention>,
    names: &Names,
    rows: u64,
    outcomes: &[Outcome],
) -> Result<(), NoMemory>
    ensures { OnOk result (map mention_in found.new.items ≡ map mention_in found.old.items ++ map (mention_of names.now rows) outcomes.now) }
{
    for outcome in outcomes {
        let text = Text::new(outcome_bytes(alloc, names, outcome)?);
        found.push(Mention { text, rows })?;
    }
    Ok(())
}

// Their texts in order, each once.
fn texts_of(alloc: Global, mentioned: &[Mention]) -> Result<List<Text>, NoMemory>
    ensures { IfOk result (λ texts. texts ≡ sorted_names (map (λ m. m.text) mentioned.now)) }
{
    let mut texts = texts_in(alloc, mentioned)?;
    texts.sort()?;
    let found = texts.copies(alloc)?;
    Ok(found)
}

// Their texts, each once.
fn texts_in(alloc: Global, mentioned: &[Mention]) -> Result<NameIndex, NoMemory>
    ensures { IfOk result (λ texts. texts ≡ add_names [] (map (λ m. m.text) mentioned.now)) }
{
    let mut texts = NameIndex::new(alloc);
    for mention in mentioned {
        texts.add(alloc, &mention.text)?;
    }
    Ok(texts)
}

// The count of each text.
fn counts_of(alloc: Global, mentioned: &[Mention]) -> Result<Counts, NoMemory>
    ensures { IfOk result (AreCounts (map mention_in mentioned.now)) }
{
    let mut counts = Counts {
        counts: IndexMap::new(alloc),
    };
    for mention in mentioned {
        add_mention(alloc, &mut counts, mention)?;
    }
    Ok(counts)
}

fn add_mention(alloc: Global, counts: &mut Counts, mention: &Mention) -> Result<(), NoMemory>
    ensures { OnOk result ((ms : List (List ℕ × ℕ)) → AreCounts ms counts.old → AreCounts (ms ++ mention_in mention.now ∷ []) counts.new) }
{
    let text = mention.text.as_bytes();
    let count = raised(counts.get(text), mention.rows);
    counts.counts.insert(text.to_vec(alloc)?, count)?;
    Ok(())
}

fn raised(count: Count, rows: u64) -> Count
    ensures { result ≡ raised count rows }
{
    Count {
        groups: count.groups.saturating_add(1),
        rows: count.rows.saturating_add(rows),
    }
}

fn add_counted(
    alloc: Global,
    found: &mut Vec<Tally>,
    version: Version,
    texts: &[Text],
    counts: &Counts,
) -> Result<(), NoMemory>
    ensures { OnOk result (found.new.items ≡ found.old.items ++ map (tally_with version counts.now) texts.now) }
{
    for text in texts {
        found.push(Tally {
            version,
            text: Text::copy_of(alloc, text.as_bytes())?,
            count: counts.get(text.as_bytes()),
        })?;
    }
    Ok(())
}
