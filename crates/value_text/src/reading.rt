//! The value of a text.

ghost use Rattle.std.specs.Prelude.{◌≡◌, ◌≢◌, ◌≤◌, ℕ, List, ◌++◌, length, drop, codes, IsTrue, ◌↔◌, IfOk, IfSome, IsNone};
ghost use Rattle.spec_frames.specs.Number.{AreBytes};
ghost use Rattle.spec_formats.specs.ValueText.{Hexadecimal, Truth, IsValueOf};
ghost use Rattle.value_text.specs.Forms.{form_seen};
ghost use Rattle.value_text.specs.Parts.{Answers, HasForm};

use crate::form::{Form, form_of_type};
use crate::numbers::{read_signed, read_unsigned};
use crate::quotes::read_quoted;
use ads_base::{NoMemory, Octets};
use hex::FromHexError;
use std::alloc::Global;

/// The value of a type id and a size that a text is read as: the text is the value's own text, as `to_text`
/// writes it, but that hexadecimal digits may stand in either case. `None` for every other text, also where the
/// number is out of range, where the string has a NUL or no room for one behind it, and where the digits are not
/// just two a byte.
pub fn from_text(
    alloc: Global,
    type_id: u32,
    size: u32,
    text: &[u8],
) -> Result<Option<Octets>, NoMemory>
    requires { size ≤ 1048576 }
    ensures some { IfOk result (λ found. IfSome found (IsValueOf type_id size text.now)) }
    ensures none { IfOk result (λ found. IsNone found → (value : List ℕ) → AreBytes value → IsValueOf type_id size text.now value → ⊥) }
{
    read_form(
        alloc,
        form_of_type(type_id, size as usize),
        size as usize,
        text,
    )
}

fn read_form(
    alloc: Global,
    form: Form,
    size: usize,
    text: &[u8],
) -> Result<Option<Octets>, NoMemory>
    requires { HasForm (form_seen form) size }
    ensures { IfOk result (Answers (form_seen form) size text.now) }
{
    match form {
        Form::Signed => read_signed(alloc, size, text),
        Form::Unsigned => read_unsigned(alloc, size, text),
        Form::Truth => read_truth(alloc, text),
        Form::Quoted => read_quoted(alloc, size, text),
        Form::Hexadecimal => read_hexadecimal(alloc, size, text),
    }
}

#[tactic(auto, unfolding(spec_formats::specs::ValueText::text_of))]
fn read_truth(alloc: Global, text: &[u8]) -> Result<Option<Octets>, NoMemory>
    ensures { IfOk result (Answers Truth 1 text.now) }
{
    if text == b"FALSE".as_slice() {
        let value = Octets::copy_of(alloc, &[0])?;
        return Ok(Some(value));
    }
    if text == b"TRUE".as_slice() {
        let value = Octets::copy_of(alloc, &[1])?;
        return Ok(Some(value));
    }
    Ok(None)
}

fn read_hexadecimal(alloc: Global, size: usize, text: &[u8]) -> Result<Option<Octets>, NoMemory>
    ensures { IfOk result (Answers Hexadecimal size text.now) }
{
    if !begins_hexadecimal(text) {
        return Ok(None);
    }
    match hex::decode(alloc, &text[3..]) {
        Ok(bytes) => {
            if bytes.len() == size {
                Ok(Some(Octets::from_vec(bytes)))
            } else {
                Ok(None)
            }
        }
        Err(FromHexError::OutOfMemory) => Err(NoMemory),
        Err(_) => Ok(None),
    }
}

fn begins_hexadecimal(text: &[u8]) -> bool
    ensures prefix { IsTrue result ↔ (text.now ≡ codes "16#" ++ drop 3 text.now) }
    ensures length { IsTrue result → 3 ≤ length text.now }
{
    text.len() >= 3 && text[0] == b'1' && text[1] == b'6' && text[2] == b'#'
}
