//! The value that a text is read as.

ghost use Rattle.std.specs.Prelude.{◌≡◌, ◌≤◌, IfOk};
ghost use Rattle.spec_frames.specs.Number.{AreBytes};
ghost use Rattle.spec_client.specs.ValueReading.{value_of_text};

use ads_base::{NoMemory, Octets};
use std::alloc::Global;
use value_text::from_text;

/// The value of a type id and a size that a text is read as.
pub(crate) fn read_value(
    alloc: Global,
    type_id: u32,
    size: u32,
    text: &[u8],
) -> Result<Option<Octets>, NoMemory>
    requires { size ≤ 1048576 }
    ensures { IfOk result (λ found. found ≡ value_of_text type_id size text.now) }
{
    match from_text(alloc, type_id, size, text)? {
        None => Ok(None),
        Some(value) => {
            value_bytes(value.as_slice());
            Ok(Some(value))
        }
    }
}

// What is read of a slice of bytes is below 256.
fn value_bytes(bytes: &[u8])
    ensures { AreBytes bytes.now }
{}
