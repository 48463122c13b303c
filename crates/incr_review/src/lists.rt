//! Lists that lose an item.

ghost use Rattle.std.specs.Prelude.{◌≡◌, ◌<◌, length, remove};

use net_types::List;
use std::alloc::Global;
use std::mem;

/// Takes the item at the position out of the list.
pub(crate) fn remove_at<T: Drop>(alloc: Global, list: &mut List<T>, position: usize)
    requires { position < length list.old }
    ensures { list.new ≡ remove list.old position }
{
    let mut all = mem::replace(list, List::empty(alloc)).into_vec();
    let _ = all.remove(position);
    *list = List::new(all);
}
