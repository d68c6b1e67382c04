//! The text of a value.

ghost use Rattle.std.specs.Prelude.{◌≡◌, ◌++◌, OnOk, OnErr};
ghost use Rattle.spec_formats.specs.ValueText.{Hexadecimal, truth_text, text_of, value_text};

use crate::form::{Form, form_of_type};
use crate::numbers::{put_signed, put_unsigned};
use crate::quotes::put_quoted;
use ads_base::{NoMemory, Octets};
use std::alloc::Global;

/// Appends the text of a value of a type id.
///
/// | type id and size | text |
/// |---|---|
/// | 16, 2, 3, 20 with 1, 2, 4, 8 bytes | a signed decimal number |
/// | 17, 18, 19, 21 with 1, 2, 4, 8 bytes | an unsigned decimal number |
/// | 33 with 1 byte | `FALSE` for 0, `TRUE` for any other |
/// | 30 with 1 byte or more | the bytes before the first NUL between single quotes, `$` and two digits for each that is not plain |
/// | any other | `16#` and two lower-case digits a byte |
///
/// Beckhoff Information System, "ADS data types".
pub fn to_text(alloc: Global, type_id: u32, bytes: &[u8], out: &mut Octets) -> Result<(), NoMemory>
    ensures ok { OnOk result (out.new ≡ out.old ++ value_text type_id bytes.now) }
    ensures no_memory { OnErr result (out.new ≡ out.old) }
{
    match form_of_type(type_id, bytes.len()) {
        Form::Signed => put_signed(alloc, bytes, out),
        Form::Unsigned => put_unsigned(alloc, bytes, out),
        Form::Truth => put_truth(alloc, bytes[0], out),
        Form::Quoted => put_quoted(alloc, bytes, out),
        Form::Hexadecimal => put_hexadecimal(alloc, bytes, out),
    }
}

fn put_truth(alloc: Global, byte: u8, out: &mut Octets) -> Result<(), NoMemory>
    ensures ok { OnOk result (out.new ≡ out.old ++ truth_text byte) }
    ensures no_memory { OnErr result (out.new ≡ out.old) }
{
    if byte == 0 {
        out.put(alloc, b"FALSE")?;
    } else {
        out.put(alloc, b"TRUE")?;
    }
    Ok(())
}

#[tactic(auto, unfolding(spec_formats::specs::ValueText::text_of))]
fn put_hexadecimal(alloc: Global, bytes: &[u8], out: &mut Octets) -> Result<(), NoMemory>
    ensures ok { OnOk result (out.new ≡ out.old ++ text_of Hexadecimal bytes.now) }
    ensures no_memory { OnErr result (out.new ≡ out.old) }
{
    let digits = hex::encode(alloc, bytes)?;
    let before = out.len();
    out.put(alloc, b"16#")?;
    let put = out.put(alloc, digits.as_bytes());
    out.cut_back(before, put)
}
