//! The choices of all destinations, as cubes of headers: disjoint ones, or those of the prefixes in the order in which they are tried.

ghost use Rattle.std.specs.Prelude.{◌≡◌, ◌<◌, ◌≤◌, ◌^◌, ◌/◌, ◌∷◌, [], ℕ, Some, IfOk, All, AllPairs, Any, map, length};
ghost use Rattle.std.specs.Option.{unwrap_or};
ghost use Rattle.std.specs.List.Sorted.{IsStrictlySortedBy};
ghost use Rattle.hdr_bits.specs.CubeBits.{IsIn};
ghost use Rattle.net_types.specs.Order.{hop_cmp, in_order};
ghost use Rattle.net_types.specs.Routes.{hops};
ghost use Rattle.cube_alg.specs.Pieces.{value_of, AreStarsAt};
ghost use Rattle.fib_lookup.specs.Choices.{choices_in, AreChoicesFor, IsOfDestinations};
ghost use Rattle.fib_lookup.specs.declared.form.HopForm.TheVariants.{Discard};
ghost use Rattle.fib_lookup.specs.Forms.{form_cmp, hop_of};
ghost use Rattle.fib_lookup.specs.Groups.{number_of, forms_at, first_forms, row, AreChoices};

use crate::form::HopForm;
use crate::group::{Group, add_level};
use crate::known::resolve;
use crate::prefix::prefix_cube;
use crate::table::Table;
use cube_alg::{Piece, first_cut};
use hdr_bits::Cube;
use net_types::{Duplicate, List, NoMemory, Rib};
use std::alloc::Global;

/// The choices of every destination: disjoint cubes that hold all headers and fix nothing but destinations, each with the
/// choices of its headers, in order and each once.
///
/// # Errors
///
/// There was no memory, or there are 2 to the 32 prefixes or more.
pub fn compile_rib(alloc: Global, rib: &Rib) -> Result<Vec<(Cube, List<HopForm>)>, NoMemory>
    ensures apart { IfOk result (λ r. AllPairs (λ p q. (h : ℕ) → IsIn p.0 h → IsIn q.0 h → ⊥) r.items) }
    ensures covers { IfOk result (λ r. (h : ℕ) → h < 2 ^ 112 → Any (λ p. IsIn p.0 h) r.items) }

    // A direct choice has the header's own destination as its next address.
    ensures exact { IfOk result (λ r. All (λ p. (h : ℕ) → h < 2 ^ 112 → IsIn p.0 h → in_order hop_cmp (map (hop_of (h / 2 ^ 80)) p.1) ≡ in_order hop_cmp (hops rib.now (h / 2 ^ 80))) r.items) }
    ensures sorted { IfOk result (λ r. All (λ p. IsStrictlySortedBy form_cmp p.1) r.items) }
    ensures destinations { IfOk result (λ r. All (λ p. IsOfDestinations p.0) r.items) }
{
    let groups = all_groups(alloc, rib)?;
    let pieces = pieces_of(alloc, groups.as_slice())?;
    let parts = first_cut(alloc, pieces.as_slice())?;
    let rows = rows_of(alloc, groups.as_slice(), parts.as_slice())?;
    Ok(rows)
}

/// The choices of every destination by its prefixes, in the order in which these are tried: a header has the choices of
/// the first cube that holds it, and there is one. The cubes fix nothing but destinations; there are at most as many as
/// prefixes, and one more, of all headers.
///
/// # Errors
///
/// There was no memory.
pub fn prefix_choices(alloc: Global, rib: &Rib) -> Result<Vec<(Cube, List<HopForm>)>, NoMemory>
    ensures exact { IfOk result (λ r. (h : ℕ) → h < 2 ^ 112 → AreChoicesFor rib.now (h / 2 ^ 80) (choices_in r.items h)) }
    ensures sorted { IfOk result (λ r. All (λ p. IsStrictlySortedBy form_cmp p.1) r.items) }
    ensures destinations { IfOk result (λ r. All (λ p. IsOfDestinations p.0) r.items) }
{
    let groups = all_groups(alloc, rib)?;
    let rows = rows_by_prefix(alloc, groups)?;
    Ok(rows)
}

/// The groups in order, each with the cube of its prefix, and a drop for all other headers.
fn rows_by_prefix(alloc: Global, groups: Vec<Group>) -> Result<Vec<(Cube, List<HopForm>)>, NoMemory>
    requires { All (λ g. IsStrictlySortedBy form_cmp g.forms.items) groups.items }
    ensures choices { IfOk result (λ rows. (h : ℕ) → h < 2 ^ 112 → choices_in rows.items h ≡ Some (first_forms groups.items (h / 2 ^ 80))) }
    ensures sorted { IfOk result (λ rows. All (λ p. IsStrictlySortedBy form_cmp p.1) rows.items) }
    ensures destinations { IfOk result (λ rows. All (λ p. IsOfDestinations p.0) rows.items) }
{
    let mut rows = Vec::with_capacity(alloc, groups.len())?;
    for group in groups {
        let cube = prefix_cube(&group.prefix);
        rows.push((cube, List::new(group.forms)))?;
    }
    rows.push((Cube::all(), dropped(alloc)?))?;
    Ok(rows)
}

/// A drop alone.
fn dropped(alloc: Global) -> Result<List<HopForm>, NoMemory>
    ensures { IfOk result (λ forms. forms ≡ Discard ∷ []) }
{
    let mut forms = List::empty(alloc);
    forms.push(HopForm::Discard)?;
    Ok(forms)
}

/// The parts with the choices of their groups.
fn rows_of(
    alloc: Global,
    groups: &[Group],
    parts: &[Piece],
) -> Result<Vec<(Cube, List<HopForm>)>, NoMemory>
    ensures { IfOk result (λ rows. rows.items ≡ map (row groups.now) parts.now) }
{
    let mut rows = Vec::with_capacity(alloc, parts.len())?;
    for part in parts {
        rows.push((part.cube, forms_at(alloc, groups, part.value)?))?;
    }
    Ok(rows)
}

/// The groups of the prefixes, the longest first. Without a lookup there is none, and each destination is dropped.
fn all_groups(alloc: Global, rib: &Rib) -> Result<Vec<Group>, NoMemory>
    ensures { IfOk result (λ groups. AreChoices rib.now groups.items) }
{
    let Some(steps) = rib.count.checked_sub(1) else {
        return Ok(Vec::new(alloc));
    };
    let routes = rib.routes.as_slice();
    let table = Table::of(alloc, routes)?;
    let known = resolve(alloc, &table, routes, steps)?;
    let mut groups = Vec::new(alloc);
    for level in &table.levels {
        add_level(alloc, &known, level, &mut groups)?;
    }
    Ok(groups)
}

/// A piece for each group, in order, with the group's position as its value, and one for all other headers.
fn pieces_of(alloc: Global, groups: &[Group]) -> Result<Vec<Piece>, NoMemory>
    ensures value { IfOk result (λ r. (h : ℕ) → h < 2 ^ 112 → value_of r.items h ≡ Some (unwrap_or (number_of groups.now (h / 2 ^ 80)) (length groups.now))) }
    ensures stars { IfOk result (λ r. (k : ℕ) → 32 ≤ k → k < 112 → AreStarsAt r.items k) }
{
    let mut pieces = Vec::new(alloc);
    for (i, group) in groups.iter().enumerate() {
        let cube = prefix_cube(&group.prefix);
        pieces.push(Piece {
            cube,
            value: number(i)?,
        })?;
    }
    pieces.push(Piece {
        cube: Cube::all(),
        value: number(groups.len())?,
    })?;
    Ok(pieces)
}

/// The position as a piece's value.
fn number(position: usize) -> Result<u32, NoMemory>
    ensures { IfOk result (λ value. value ≡ position) }
{
    u32::try_from(position).map_err(|_| NoMemory)
}

/// The choices of the group at this position; a drop where there is none.
fn forms_at(alloc: Global, groups: &[Group], position: u32) -> Result<List<HopForm>, NoMemory>
    ensures { IfOk result (λ forms. forms ≡ forms_at groups.now position) }
{
    let mut forms = List::empty(alloc);
    let Some(group) = groups.get(position as usize) else {
        forms.push(HopForm::Discard)?;
        return Ok(forms);
    };
    for form in &group.forms {
        forms.push(form.copy(alloc)?)?;
    }
    Ok(forms)
}
