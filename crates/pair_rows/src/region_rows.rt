//! The rows of one region, as a leaf of the pool.

ghost use Rattle.std.specs.Prelude.{IfSome};
ghost use Rattle.hdr_bits.specs.CubeBits.{IsIn};
ghost use Rattle.pair_rows.specs.Pairs.{AreRowsFor};

use crate::kept::Pairing;
use cube_alg::Region;
use net_types::Row;
use std::marker::{Model, PhantomData};

/// The rows of a region, or none where they weren't found.
///
/// A leaf of the pool has one value for all its headers. So contracts see nothing of it: any two are equal, and what rows
/// one holds is known by its type.
#[derive(Drop)]
pub(crate) struct RegionRows<K: Pairing> {
    region: Region,
    rows: Option<Vec<Row>>,
    pairing: PhantomData<K>,
}

impl<K: Pairing> Model for RegionRows<K> {
    ghost use Rattle.std.specs.Prelude.{⊤, IfSome};
    ghost use Rattle.hdr_bits.specs.CubeBits.{IsIn};
    ghost use Rattle.pair_rows.specs.Pairs.{AreRowsFor};

    ghost Value = { ⊤ };

    ghost view = { λ _. tt };

    // They are rows of what the region's slot is given.
    ghost invariant = { λ r. IfSome r.rows (λ rows. AreRowsFor (K.gives r.region.slot) (IsIn r.region.cube) rows.items) };
}

impl<K: Pairing> RegionRows<K> {
    /// Those of this region.
    pub(crate) fn of(region: Region, rows: Option<Vec<Row>>) -> RegionRows<K>
        requires { IfSome rows (λ rows. AreRowsFor (K.gives region.slot) (IsIn region.cube) rows.items) }
    {
        RegionRows {
            region,
            rows,
            pairing: PhantomData,
        }
    }

    /// The rows, if they are there and are those of this region.
    pub(crate) fn of_region(self, region: &Region) -> Option<Vec<Row>>
        ensures { IfSome result (λ rows. AreRowsFor (K.gives region.now.slot) (IsIn region.now.cube) rows.items) }
    {
        let RegionRows {
            region: own,
            rows,
            ..
        } = self;
        if own == *region { rows } else { None }
    }
}
