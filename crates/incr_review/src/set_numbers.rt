//! One number for all headers of a set.

ghost use Rattle.std.specs.Prelude.{◌≡◌, ◌<◌, ℕ, Some, IfOk};
ghost use Rattle.hdr_bits.specs.CubeBits.{IsIn};
ghost use Rattle.cube_diagram.specs.Combined.{if_both};
ghost use Rattle.cube_diagram.specs.Functions.{Keeps, count_of, value_at};

use cube_diagram::Diagrams;
use hdr_bits::Cube;
use net_types::NoMemory;

/// The function that gives the headers of the set this number, and no other header one.
pub(crate) fn on_set(table: &mut Diagrams, set: u32, number: u32) -> Result<u32, NoMemory>
    requires { set < count_of table.old }
    ensures below { IfOk result (λ r. r < count_of table.new) }
    ensures exact { IfOk result (λ r. (h : ℕ) → value_at table.new r h ≡ if_both (Some number) (value_at table.old set h)) }
    ensures kept { Keeps table.old table.new }
{
    let everywhere = table.add_entry(&[all_headers()], number)?;
    table.within(everywhere, set)
}

// The cube of all headers.
fn all_headers() -> Cube
    ensures { (h : ℕ) → IsIn result h }
{
    Cube { fixed: 0, bits: 0 }
}
