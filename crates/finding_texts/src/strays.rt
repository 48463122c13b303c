//! Findings about next hops on lans.
ghost use Rattle.std.specs.Prelude.{◌≡◌, ◌++◌, OnOk};
ghost use Rattle.finding_texts.specs.StrayTexts.{stray_text};

use crate::places::{append_name, append_where};
use net_types::NoMemory;
use place_checks::StrayNext;
use report_text::{append, append_address};

/// A finding; `two` where it is about two networks.
pub fn append_stray(out: &mut Vec<u8>, two: bool, stray: &StrayNext) -> Result<(), NoMemory>
    ensures { OnOk result (out.new.items ≡ out.old.items ++ stray_text two stray.now) }
{
    append_name(out, &stray.place)?;
    append(out, b" has the next hop ")?;
    append_address(out, stray.next)?;
    append(out, b", which no end of the lan has")?;
    append_where(out, two, stray.networks)
}
