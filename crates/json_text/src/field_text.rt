//! The fields of a cube as a report has them.
ghost use Rattle.std.specs.Prelude.{◌≡◌, ◌≤◌, IfOk};
ghost use Rattle.report_text.specs.FieldText.{address_field_text, number_field_text};

use net_types::NoMemory;
use report_text::{append_address_field, append_number_field};
use std::alloc::Global;

/// A field that is an address: `*`, an address, a prefix or ternary digits.
pub fn address_field_bytes(alloc: Global, fixed: u32, bits: u32) -> Result<Vec<u8>, NoMemory>
    ensures { IfOk result (λ text. text.items ≡ address_field_text fixed bits) }
{
    let mut text = Vec::new(alloc);
    append_address_field(&mut text, fixed, bits)?;
    Ok(text)
}

/// A field that is a number of `width` bits, at most 16: `*`, the number or ternary digits.
pub fn number_field_bytes(
    alloc: Global,
    width: u32,
    fixed: u32,
    bits: u32,
) -> Result<Vec<u8>, NoMemory>
    requires { width ≤ 16 }
    ensures { IfOk result (λ text. text.items ≡ number_field_text width fixed bits) }
{
    let mut text = Vec::new(alloc);
    append_number_field(&mut text, width, fixed, bits)?;
    Ok(text)
}
