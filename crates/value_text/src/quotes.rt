//! Texts between single quotes, where `$` and two digits stand for a byte that is not plain.

ghost use Rattle.std.specs.Prelude.{◌≡◌, ◌≢◌, ◌+◌, ◌*◌, ◌/◌, ◌%◌, ◌<◌, ◌≤◌, ℕ, List, [], ◌∷◌, ◌++◌, length};
ghost use Rattle.std.specs.Prelude.{slice_index, IsTrue, ◌↔◌, IfOk, IfSome, IsNone, OnOk, OnErr};
ghost use Rattle.spec_frames.specs.Number.{AreBytes};
ghost use Rattle.spec_formats.specs.ValueText.{Quoted, before_nul, is_plain, upper_digit, quoted_byte, quoted, IsNulFree, IsFilledTo, text_of};
ghost use Rattle.value_text.specs.Parts.{Answers, Extends, IsEscaped};

use crate::form::Form;
use ads_base::{NoMemory, Octets};
use std::alloc::Global;

/// Appends the bytes before the first NUL, between single quotes.
#[tactic(auto, unfolding(spec_formats::specs::ValueText::text_of))]
pub(crate) fn put_quoted(alloc: Global, bytes: &[u8], out: &mut Octets) -> Result<(), NoMemory>
    ensures ok { OnOk result (out.new ≡ out.old ++ text_of Quoted bytes.now) }
    ensures no_memory { OnErr result (out.new ≡ out.old) }
{
    let before = out.len();
    let put = append_quoted(alloc, content_of(bytes), out);
    out.cut_back(before, put)
}

// After an error a part of the text may stand there.
fn append_quoted(alloc: Global, content: &[u8], out: &mut Octets) -> Result<(), NoMemory>
    ensures ok { OnOk result (out.new ≡ out.old ++ quoted content.now) }
    ensures no_memory { OnErr result (Extends out.old out.new) }
{
    out.push(alloc, b'\'')?;
    for byte in content {
        append_byte(alloc, *byte, out)?;
    }
    out.push(alloc, b'\'')?;
    Ok(())
}

#[tactic(auto, unfolding(spec_formats::specs::ValueText::quoted_byte))]
fn append_byte(alloc: Global, byte: u8, out: &mut Octets) -> Result<(), NoMemory>
    ensures ok { OnOk result (out.new ≡ out.old ++ quoted_byte byte) }
    ensures no_memory { OnErr result (out.new ≡ out.old) }
{
    if is_plain(byte) {
        out.push(alloc, byte)?;
        return Ok(());
    }
    out.put(
        alloc,
        &[b'$', upper_digit(byte / 16), upper_digit(byte % 16)],
    )?;
    Ok(())
}

fn is_plain(byte: u8) -> bool
    ensures { result ≡ is_plain byte }
{
    byte >= 0x20 && byte <= 0x7E && byte != b'\'' && byte != b'$'
}

fn upper_digit(digit: u8) -> u8
    requires { digit < 16 }
    ensures { result ≡ upper_digit digit }
{
    if digit < 10 {
        b'0' + digit
    } else {
        b'A' - 10 + digit
    }
}

// The bytes before the first NUL.
fn content_of(bytes: &[u8]) -> &[u8]
    ensures { result.now ≡ before_nul bytes.now }
{
    for i in 0..bytes.len() {
        if bytes[i] == 0 {
            return &bytes[..i];
        }
    }
    bytes
}

/// The string of a text, filled with NULs to its size.
pub(crate) fn read_quoted(
    alloc: Global,
    size: usize,
    text: &[u8],
) -> Result<Option<Octets>, NoMemory>
    ensures { IfOk result (Answers Quoted size text.now) }
{
    match unquoted(alloc, text)? {
        None => Ok(None),
        Some(content) => match filled(alloc, content, size)? {
            Some(value) => Ok(Some(value)),
            None => Ok(None),
        },
    }
}

// A string and NULs behind it, or nothing where there is no room for one NUL.
fn filled(alloc: Global, content: Octets, size: usize) -> Result<Option<Octets>, NoMemory>
    requires { IsNulFree content }
    ensures some { IfOk result (λ found. IfSome found (IsFilledTo size content)) }
    ensures none { IfOk result (λ found. IsNone found → size ≤ length content) }
{
    if content.len() >= size {
        return Ok(None);
    }
    let mut value = content;
    'nuls: while value.len() < size {
        value.push(alloc, 0)?;
    }
    Ok(Some(value))
}

// The bytes that stand between the quotes, none of them a NUL.
fn unquoted(alloc: Global, text: &[u8]) -> Result<Option<Octets>, NoMemory>
    ensures some { IfOk result (λ found. IfSome found (λ content. (text.now ≡ quoted content) × IsNulFree content)) }
    ensures none { IfOk result (λ found. IsNone found → (content : List ℕ) → AreBytes content → IsNulFree content → text.now ≢ quoted content) }
{
    if !begins_with_quote(text) {
        return Ok(None);
    }
    let mut content = Octets::new(alloc);
    let mut rest = &text[1..];
    'bytes: while !is_quote(rest) {
        let Some((byte, behind)) = first_byte(rest) else {
            return Ok(None);
        };
        content.push(alloc, byte)?;
        rest = behind;
    }
    Ok(Some(content))
}

fn begins_with_quote(text: &[u8]) -> bool
    ensures { IsTrue result ↔ ((0 < length text.now) × (slice_index text.now 0 ≡ 39)) }
{
    text.len() > 0 && text[0] == b'\''
}

fn is_quote(text: &[u8]) -> bool
    ensures { IsTrue result ↔ (text.now ≡ 39 ∷ []) }
{
    text == b"'".as_slice()
}

// The byte that the front of a text stands for, and what stands behind it.
fn first_byte(text: &[u8]) -> Option<(u8, &[u8])>
    ensures some { IfSome result (λ (byte, rest). text.now ≡ quoted_byte byte ++ rest.now) }
    ensures no_nul { IfSome result (λ (byte, _). 0 < byte) }
    ensures shorter { IfSome result (λ (_, rest). length rest.now < length text.now) }
    ensures none { IsNone result → (byte : ℕ) (rest : List ℕ) → byte < 256 → 0 < byte → text.now ≢ quoted_byte byte ++ rest }
{
    if text.is_empty() {
        return None;
    }
    if is_plain(text[0]) {
        return Some((text[0], &text[1..]));
    }
    if text.len() < 3 || text[0] != b'$' {
        return None;
    }
    let byte = escaped(text[1], text[2])?;
    Some((byte, &text[3..]))
}

// The byte of two digits behind a `$`: neither plain nor a NUL.
fn escaped(high: u8, low: u8) -> Option<u8>
    ensures some { IfSome result (IsEscaped high low) }
    ensures none { IsNone result → (byte : ℕ) → byte < 256 → IsEscaped high low byte → ⊥ }
{
    let byte = upper_value(high)? * 16 + upper_value(low)?;
    if byte == 0 || is_plain(byte) {
        return None;
    }
    Some(byte)
}

fn upper_value(digit: u8) -> Option<u8>
    ensures some { IfSome result (λ n. (n < 16) × (digit ≡ upper_digit n)) }
    ensures none { IsNone result → (n : ℕ) → n < 16 → digit ≢ upper_digit n }
{
    if digit >= b'0' && digit <= b'9' {
        return Some(digit - b'0');
    }
    if digit >= b'A' && digit <= b'F' {
        return Some(digit - b'A' + 10);
    }
    None
}
