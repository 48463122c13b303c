//! What follows from the definition of a row, for each function that gives headers values.
//!
//! Each law is the contract of a function that does nothing. A proof takes its lemma, from `RowLaws`,
//! `LikeFunctions` or `CanonicalRows` of this crate's proofs, or from `OneList` of hdr_bits'.

ghost use Rattle.std.specs.Prelude.{◌≡◌, ◌<◌, ◌^◌, ◌↔◌, ℕ, List, ◌∷◌, Option, Some, None, IsSome, All, AllPairs};
ghost use Rattle.hdr_bits.specs.declared.cube.Cube.{Cube};
ghost use Rattle.hdr_bits.specs.CubeBits.{IsIn};
ghost use Rattle.hdr_bits.specs.Rows.{IsRow, AreRows};
ghost use Rattle.canon_rows.specs.declared.Piece.{Piece};
ghost use Rattle.canon_rows.specs.Pieces.{value_of, AreApart, HasValue};
ghost use Rattle.canon_rows.specs.Laws.{IsDecided, HasRowOf, TellSameApart};

use crate::Piece;

/// What gives each header, by its number, a value or nothing.
pub trait HeaderValues {
    type Value;

    /// The value of the header with this number.
    ghost value_of: { Self → ℕ → Option Self.Value };
}

/// Two rows with a header in common are one.
pub fn rows_are_disjoint<L: HeaderValues>()
    ensures { (l : L) (c d : Cube) → IsRow (L.value_of l) c → IsRow (L.value_of l) d → (h : ℕ) → h < 2 ^ 112 → IsIn c h → IsIn d h → c ≡ d }
{}

/// All headers of a row have one value.
pub fn rows_are_constant<L: HeaderValues>()
    ensures { (l : L) (c : Cube) → IsRow (L.value_of l) c → (h g : ℕ) → h < 2 ^ 112 → g < 2 ^ 112 → IsIn c h → IsIn c g → L.value_of l h ≡ L.value_of l g }
{}

/// A header is in a row exactly where it has a value, if of any two values it is decided whether they
/// are equal.
pub fn rows_cover<L: HeaderValues>()
    ensures { (l : L) → IsDecided L.Value → (h : ℕ) → h < 2 ^ 112 → HasRowOf (L.value_of l) h ↔ IsSome (L.value_of l h) }
{}

/// A function has one list of rows.
pub fn rows_are_one_list<L: HeaderValues>()
    ensures { (l : L) (xs ys : List Cube) → AreRows (L.value_of l) xs → AreRows (L.value_of l) ys → xs ≡ ys }
{}

/// Two functions have the same rows where they give values to the same headers and tell the same
/// headers apart.
pub fn rows_follow_differences<L: HeaderValues, M: HeaderValues>()
    ensures { (l : L) (m : M) → TellSameApart (L.value_of l) (M.value_of m) → (rows : List Cube) → AreRows (L.value_of l) rows ↔ AreRows (M.value_of m) rows }
{}

/// The first piece that holds a header gives it its value; where no piece holds it, it has none. So
/// pieces that are apart give each header of a piece that piece's value.
pub fn pieces_give_values()
    ensures held { (p : Piece) (ps : List Piece) (h : ℕ) → IsIn p.cube h → value_of (p ∷ ps) h ≡ Some p.value }
    ensures passed { (p : Piece) (ps : List Piece) (h : ℕ) → (IsIn p.cube h → ⊥) → value_of (p ∷ ps) h ≡ value_of ps h }
    ensures nowhere { (ps : List Piece) (h : ℕ) → All (λ p. IsIn p.cube h → ⊥) ps → value_of ps h ≡ None }
    ensures apart { (ps : List Piece) → AllPairs AreApart ps → All (HasValue (value_of ps)) ps }
{}

impl HeaderValues for Vec<Piece> {
    ghost use Rattle.canon_rows.specs.Pieces.{value_of as value_of_pieces};

    type Value = u64;

    ghost value_of = { λ pieces. value_of_pieces pieces.items };
}
