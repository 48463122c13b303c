//! Groups that differ in one field, joined in that field.
ghost use Rattle.std.specs.Prelude.{◌≡◌, ◌<◌, [], length, map, IfOk, OnOk};
ghost use Rattle.report_groups.specs.Drafts.{shown, Adds, IsFilled, JoinsIn, filled_of};
ghost use Rattle.report_groups.specs.Groups.{AreDistinct};

use crate::draft::{put_field, take_field};
use crate::types::{Draft, Pattern};
use indexmap::IndexSet;
use net_types::NoMemory;
use std::alloc::Global;
use std::marker::Model;

/// Groups without one field, each once, and what stood in that field of the groups that equal it.
#[derive(Drop)]
pub(crate) struct Joining {
    keys: IndexSet<Draft>,
    lists: Vec<Vec<Pattern>>,
}

impl Model for Joining {
    ghost use Rattle.std.specs.Prelude.{List, map};
    ghost use Rattle.report_groups.specs.declared.types.Group.{Group};
    ghost use Rattle.report_groups.specs.declared.types.Pattern.{Pattern};
    ghost use Rattle.report_groups.specs.Drafts.{shown};

    ghost Value = { List Group × List (List Pattern) };

    ghost view = { λ j. (map shown j.keys.keys, map (λ list. list.items) j.lists.items) };
}

impl Joining {
    fn new(alloc: Global) -> Joining
        ensures { result ≡ ([], []) }
    {
        Joining {
            keys: IndexSet::new(alloc),
            lists: Vec::new(alloc),
        }
    }

    // Adds a group, whose field `k` is taken out.
    fn add(&mut self, alloc: Global, draft: Draft, k: usize) -> Result<(), NoMemory>
        requires field { k < 6 }
        requires paired { length self.old.0 ≡ length self.old.1 }
        ensures added { OnOk result (Adds k (shown draft) self.old.0 self.old.1 self.new.0 self.new.1) }
        ensures distinct { OnOk result (AreDistinct self.new.0) }
    {
        let mut draft = draft;
        let list = take_field(alloc, &mut draft, k);
        let (place, added) = self.keys.insert_full(draft)?;
        if added {
            self.lists.push(list)?;
            return Ok(());
        }
        let mut list = list;
        self.lists[place].append(&mut list)?;
        Ok(())
    }
}

/// The groups, joined in field `k`.
pub(crate) fn join(alloc: Global, drafts: Vec<Draft>, k: usize) -> Result<Vec<Draft>, NoMemory>
    requires { k < 6 }
    ensures { IfOk result (λ joined. JoinsIn k (map shown drafts.items) (map shown joined.items)) }
{
    let joining = gather(alloc, drafts, k)?;
    let joined = spread(alloc, joining, k)?;
    Ok(joined)
}

// The groups without field `k`, each once.
fn gather(alloc: Global, drafts: Vec<Draft>, k: usize) -> Result<Joining, NoMemory>
    requires { k < 6 }
    ensures filled { IfOk result (λ joining. IsFilled k (map shown drafts.items) joining.0 joining.1) }
    ensures distinct { IfOk result (λ joining. AreDistinct joining.0) }
{
    let mut joining = Joining::new(alloc);
    for draft in drafts {
        joining.add(alloc, draft, k)?;
    }
    Ok(joining)
}

// The groups with field `k`.
fn spread(alloc: Global, joining: Joining, k: usize) -> Result<Vec<Draft>, NoMemory>
    requires { k < 6 }
    ensures { IfOk result (λ drafts. map shown drafts.items ≡ filled_of k joining.0 joining.1) }
{
    let Joining { keys, lists } = joining;
    let drafts = drafts_of(alloc, keys)?;
    fill(alloc, drafts, lists, k)
}

fn drafts_of(alloc: Global, keys: IndexSet<Draft>) -> Result<Vec<Draft>, NoMemory>
    ensures { IfOk result (λ drafts. drafts.items ≡ keys.keys) }
{
    let mut keys = keys;
    let mut drafts = Vec::with_capacity(alloc, keys.len())?;
    while let Some(draft) = keys.pop() {
        drafts.push(draft)?;
    }
    drafts.reverse();
    Ok(drafts)
}

fn fill(
    alloc: Global,
    drafts: Vec<Draft>,
    lists: Vec<Vec<Pattern>>,
    k: usize,
) -> Result<Vec<Draft>, NoMemory>
    requires { k < 6 }
    ensures { IfOk result (λ filled. map shown filled.items ≡ filled_of k (map shown drafts.items) (map (λ list. list.items) lists.items)) }
{
    let mut filled = Vec::with_capacity(alloc, drafts.len())?;
    let mut lists = lists.into_iter();
    for draft in drafts {
        let Some(list) = lists.next() else {
            return Ok(filled);
        };
        let mut draft = draft;
        put_field(&mut draft, k, list);
        filled.push(draft)?;
    }
    Ok(filled)
}
