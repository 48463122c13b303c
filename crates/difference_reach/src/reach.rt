//! The headers that may meet a difference, from end to end.

ghost use Rattle.std.specs.Prelude.{◌≡◌, ◌<◌, ℕ, IfOk};
ghost use Rattle.hdr_bits.specs.declared.header.Header.{Header};
ghost use Rattle.hdr_bits.specs.HeaderBits.{IsHeader};
ghost use Rattle.cube_diagram.specs.Functions.{Keeps, count_of};
ghost use Rattle.net_types.specs.World.{World};
ghost use Rattle.net_types.specs.Walks.{label};
ghost use Rattle.net_types.specs.SameWalks.{SameWalksUnder};
ghost use Rattle.net_view.specs.Borrowed.{world_of};
ghost use Rattle.set_walk.specs.Scopes.{AreAlikeBeyond};
ghost use Rattle.set_walk.specs.Sets.{InSet, IsWithin};
ghost use Rattle.set_walk.specs.Nets.{IsNet};
ghost use Rattle.difference_reach.specs.Reaches.{IsReach, AreNumbers};

use crate::grow::{Known, headers_at};
use crate::own::own_sets;
use crate::sweep::settled_sets;
use crate::used::used_positions;
use cube_diagram::Diagrams;
use indexmap::IndexMap;
use net_types::{NoMemory, Place};
use set_walk::sets::both;
use set_walk::{Net, keeps_headers};
use std::alloc::Global;

/// For each place the headers of the networks' scope that may meet a difference of the two from there on, as functions of a
/// table.
pub struct Reach<'a> {
    /// The headers for which the sets are told. Others may stand in them too.
    scope: u32,
    places: &'a IndexMap<Place, usize>,
    /// The headers whose moves differ at a place; none where the place isn't a key.
    own: IndexMap<Place, u32>,
    /// By the positions of the old network's places: the headers that go on to where they may meet a difference.
    back: Vec<u32>,
}

impl<'a> Drop for Reach<'a> {
    fn drop(self) {
        let Reach {
            scope: _,
            places: _,
            own: _,
            back: _,
        } = self;
    }
}

impl<'a> Reach<'a> {
    /// Finds for each place the headers of the scope that may meet a difference. The two networks share their scope and their
    /// list of ways: at a place that has the same position in both nothing is compared.
    ///
    /// Where this takes too long, every header may, at each place of the old network. Without memory functions may have
    /// been added to the table, but none that was there is changed.
    pub fn of(
        alloc: Global,
        table: &mut Diagrams,
        old: &Net<'a>,
        new: &Net,
    ) -> Result<Reach<'a>, NoMemory>
        requires old { IsNet table.old old.now }
        requires new { IsNet table.old new.now }
        requires scope { old.now.scope ≡ new.now.scope }
        requires lists { old.now.lists.now ≡ new.now.lists.now }
        ensures reach { IfOk result (λ r. IsReach (world_of old.now.world) (world_of new.now.world) table.new old.now.scope r) }
        ensures kept { Keeps table.old table.new }
    {
        keeps_headers(&old.world);
        let own = own_sets(alloc, table, old, new)?;
        let positions = used_positions(alloc, old)?;
        let known = Known {
            places: old.places,
            own: &own,
        };
        let back = settled_sets(alloc, table, &known, old.lists, positions.as_slice())?;
        Ok(Reach {
            scope: old.scope,
            places: old.places,
            own,
            back,
        })
    }

    /// The headers of the scope that may meet a difference of the two networks if they enter at the place: a set of the table.
    /// Any other header walks alike in both and has the same label, under every TTL, if the two networks are alike beyond the
    /// scope.
    pub fn headers_at(&self, table: &mut Diagrams, place: Place) -> Result<u32, NoMemory>
        requires { AreNumbers table.old self.now }
        ensures below { IfOk result (λ r. r < count_of table.new) }
        ensures within { IfOk result (λ r. (old new : World) (scope : ℕ) → IsReach old new table.old scope self.now → IsWithin table.new r scope) }
        ensures walks { IfOk result (λ r. (old new : World) (scope : ℕ) → IsReach old new table.old scope self.now → AreAlikeBeyond old new table.old scope → (h : Header) → IsHeader h → (InSet table.new r h → ⊥) → (t : ℕ) → SameWalksUnder old new t place h) }
        ensures equal { IfOk result (λ r. (old new : World) (scope : ℕ) → IsReach old new table.old scope self.now → AreAlikeBeyond old new table.old scope → (h : Header) → IsHeader h → (InSet table.new r h → ⊥) → (t : ℕ) → label old t place h ≡ label new t place h) }
        ensures kept { Keeps table.old table.new }
    {
        let known = Known {
            places: self.places,
            own: &self.own,
        };
        let meeting = headers_at(table, &known, &self.back, place)?;
        let set = both(table, self.scope, meeting)?;
        Ok(set)
    }
}
