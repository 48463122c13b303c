//! What follows for the rows of a report from the definition of a row.
//!
//! Each law is the contract of a function that does nothing.

ghost use Rattle.std.specs.Prelude.{◌≡◌, ◌<◌, ◌^◌, ◌↔◌, ℕ, List, IsSome};
ghost use Rattle.hdr_bits.specs.declared.cube.Cube.{Cube};
ghost use Rattle.hdr_bits.specs.CubeBits.{IsIn};
ghost use Rattle.hdr_bits.specs.Rows.{IsRow, AreRows};
ghost use Rattle.canon_rows.specs.Laws.{IsDecided, HasRowOf};
ghost use Rattle.net_types.specs.declared.label.Outcome.{Outcome};
ghost use Rattle.net_types.specs.declared.network.Place.{Place};
ghost use Rattle.net_types.specs.World.{World};
ghost use Rattle.net_types.specs.Report.{affected};

use canon_rows::laws::HeaderValues;
use net_types::{Label, Place};
use net_view::WorldRef;

/// What gives a header that enters two networks at a place with a TTL its two labels, where they differ: the function of
/// which the rows at that ingress are.
#[derive(Clone, Copy)]
pub struct Affected<'a> {
    pub old: WorldRef<'a>,
    pub new: WorldRef<'a>,
    pub place: Place,
    pub ttl: u8,
}

impl<'a> HeaderValues for Affected<'a> {
    ghost use Rattle.net_types.specs.Report.{affected};
    ghost use Rattle.net_view.specs.Borrowed.{world_of};

    type Value = (Label, Label);

    ghost value_of = { λ a. affected (world_of a.old) (world_of a.new) a.ttl a.place };
}

/// Of any two pairs of labels it is decided whether they are equal.
pub fn label_pairs_are_decided()
    ensures { IsDecided (List Outcome × List Outcome) }
{}

/// The rows at an ingress are disjoint, all headers of a row have its two labels, a header is in a row exactly where its
/// labels differ, and no other list of rows is so.
pub fn rows_are_of_affected()
    ensures disjoint { (old new : World) (t : ℕ) (p : Place) (c d : Cube) → IsRow (affected old new t p) c → IsRow (affected old new t p) d → (h : ℕ) → h < 2 ^ 112 → IsIn c h → IsIn d h → c ≡ d }
    ensures constant { (old new : World) (t : ℕ) (p : Place) (c : Cube) → IsRow (affected old new t p) c → (h g : ℕ) → h < 2 ^ 112 → g < 2 ^ 112 → IsIn c h → IsIn c g → affected old new t p h ≡ affected old new t p g }
    ensures cover { (old new : World) (t : ℕ) (p : Place) (h : ℕ) → h < 2 ^ 112 → HasRowOf (affected old new t p) h ↔ IsSome (affected old new t p h) }
    ensures one_list { (old new : World) (t : ℕ) (p : Place) (xs ys : List Cube) → AreRows (affected old new t p) xs → AreRows (affected old new t p) ys → xs ≡ ys }
{}
