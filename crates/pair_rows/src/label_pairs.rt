//! The pairs of labels that a function gives headers.

ghost use Rattle.std.specs.Prelude.{◌≡◌, ◌++◌, ◌∷◌, [], Some, IfOk, OnOk, map, filter_map, slice_get};
ghost use Rattle.net_types.specs.Order.{IsLabel};

use cube_alg::Piece;
use indexmap::IndexSet;
use net_types::{Label, NoMemory, Outcome, Row};
use std::alloc::Global;
use std::marker::Model;

/// The outcomes of the old and of the new label of some headers.
#[derive(Drop, PartialEq, Eq, Hash)]
struct LabelPair {
    old: Vec<Outcome>,
    new: Vec<Outcome>,
}

/// Pairs of labels, each once; the number of a pair is its place.
#[derive(Drop)]
pub struct LabelPairs {
    pairs: IndexSet<LabelPair>,
}

impl Model for LabelPairs {
    ghost use Rattle.std.specs.Prelude.{List, map};
    ghost use Rattle.std.specs.List.{AllByRecursion};
    ghost use Rattle.net_types.specs.declared.label.Outcome.{Outcome};
    ghost use Rattle.pair_rows.specs.Pairs.{AreDistinct, AreLabels};

    ghost Value = { List (List Outcome × List Outcome) };

    ghost view = { λ p. map (λ pair. (pair.old.items, pair.new.items)) p.pairs.keys };

    ghost invariant = { λ p. AllByRecursion AreLabels (map (λ pair. (pair.old.items, pair.new.items)) p.pairs.keys)
        × AreDistinct {A = List Outcome × List Outcome} (map (λ pair. (pair.old.items, pair.new.items)) p.pairs.keys) };
}

impl LabelPairs {
    ghost use Rattle.hdr_bits.specs.Lists.{Extends};
    ghost use Rattle.pair_rows.specs.Pairs.{AreDistinct, shown, shown_by};

    /// No pairs.
    pub fn new(alloc: Global) -> LabelPairs
        ensures { result ≡ [] }
    {
        LabelPairs {
            pairs: IndexSet::new(alloc),
        }
    }

    /// The number of this pair, which is added where it isn't there.
    pub fn number_of(&mut self, alloc: Global, old: &Label, new: &Label) -> Result<usize, NoMemory>
        ensures number { IfOk result (λ number. slice_get self.new number ≡ Some (old.now, new.now)) }
        ensures extends { OnOk result (Extends self.old self.new) }
        ensures distinct { OnOk result (AreDistinct self.new) }
    {
        let pair = LabelPair {
            old: old.as_slice().to_vec(alloc)?,
            new: new.as_slice().to_vec(alloc)?,
        };
        let (number, _) = self.pairs.insert_full(pair)?;
        Ok(number)
    }

    /// The pair of this number, as labels.
    pub fn get(&self, alloc: Global, number: usize) -> Result<Option<(Label, Label)>, NoMemory>
        ensures { IfOk result (λ found. found ≡ slice_get self.now number) }
    {
        let Some(pair) = self.pairs.get_index(number) else {
            return Ok(None);
        };
        let old = label_of(alloc, &pair.old)?;
        let new = label_of(alloc, &pair.new)?;
        Ok(Some((old, new)))
    }

    /// The pieces as rows, each with the pair of its number.
    pub(crate) fn rows_of(&self, alloc: Global, pieces: &[Piece]) -> Result<Vec<Row>, NoMemory>
        ensures rows { IfOk result (λ rows. map shown rows.items ≡ filter_map (shown_by self.now) pieces.now) }
        ensures distinct { AreDistinct self.now }
    {
        // That each pair stands once is known where the field is read.
        let _pairs = &self.pairs;
        let mut rows = Vec::with_capacity(alloc, pieces.len())?;
        for piece in pieces {
            self.add_row(alloc, piece, &mut rows)?;
        }
        Ok(rows)
    }

    fn add_row(&self, alloc: Global, piece: &Piece, rows: &mut Vec<Row>) -> Result<(), NoMemory>
        ensures { OnOk result (map shown rows.new.items ≡ map shown rows.old.items ++ filter_map (shown_by self.now) (piece.now ∷ [])) }
    {
        let Some((old, new)) = self.get(alloc, piece.value as usize)? else {
            return Ok(());
        };
        rows.push(Row {
            cube: piece.cube,
            old,
            new,
        })?;
        Ok(())
    }
}

// A label of outcomes that are one.
fn label_of(alloc: Global, outcomes: &[Outcome]) -> Result<Label, NoMemory>
    requires { IsLabel outcomes.now }
    ensures { IfOk result (λ label. label ≡ outcomes.now) }
{
    let outcomes = outcomes.to_vec(alloc)?;
    let label = Label::of(outcomes)?;
    Ok(label)
}
