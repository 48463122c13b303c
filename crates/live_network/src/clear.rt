//! Places that lose the positions of their ways.

ghost use Rattle.indexmap.specs.IndexMap.{get};
ghost use Rattle.net_types.specs.World.{same_place};
ghost use Rattle.live_network.specs.Clearing.{Clears, IsCleared};

use indexmap::IndexMap;
use net_types::Place;

/// Takes their positions from the places of the device of this name that have one of the numbers.
pub(crate) fn clear_places(positions: &mut IndexMap<Place, usize>, device: u32, numbers: &[u32])
    ensures { Clears device numbers.now (get same_place positions.old) (get same_place positions.new) }
{
    for number in numbers {
        let place = Place {
            device,
            interface: *number,
        };
        clear_place(positions, place);
    }
}

fn clear_place(positions: &mut IndexMap<Place, usize>, place: Place)
    ensures { IsCleared place (get same_place positions.old) (get same_place positions.new) }
{
    positions.swap_remove(&place);
}
