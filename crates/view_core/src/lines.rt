//! The lines of a text.
ghost use Rattle.std.specs.Prelude.{◌≡◌, map, IfOk};
ghost use Rattle.view_core.specs.Names.{text_lines};

use net_types::NoMemory;
use std::alloc::Global;

/// The lines of a text.
pub fn lines_of(alloc: Global, bytes: &[u8]) -> Result<Vec<&[u8]>, NoMemory>
    ensures { IfOk result (λ lines. map (λ line. line.now) lines.items ≡ text_lines bytes.now) }
{
    let mut lines = Vec::new(alloc);
    for line in bytes.split(|b| *b == b'\n') {
        lines.push(line)?;
    }
    Ok(lines)
}
