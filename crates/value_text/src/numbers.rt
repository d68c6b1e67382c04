//! Numbers of 1, 2, 4 or 8 bytes, and their decimal texts.

ghost use Rattle.std.specs.Prelude.{◌≡◌, ◌≢◌, ℕ, ◌*◌, ◌^◌, ◌<◌, ◌≤◌, ◌++◌, ◌∷◌, length, decimal, slice_index};
ghost use Rattle.std.specs.Prelude.{◌==◌, ◌-◌, IsTrue, IfOk, IfSome, IsNone, OnOk, OnErr};
ghost use Rattle.spec_frames.specs.Number.{number_of};
ghost use Rattle.spec_formats.specs.ValueText.{Signed, Unsigned, text_of, signed_text};
ghost use Rattle.value_text.specs.Parts.{IsNumberSize, Answers};

use crate::form::Form;
use ads_base::{NoMemory, Octets, get16, get32, get64, put16, put32, put64, read_decimal};
use std::alloc::Global;

/// Appends the text of a signed number.
#[tactic(auto, unfolding(spec_formats::specs::ValueText::text_of, spec_formats::specs::ValueText::signed_text))]
pub(crate) fn put_signed(alloc: Global, bytes: &[u8], out: &mut Octets) -> Result<(), NoMemory>
    requires size { IsNumberSize (length bytes.now) }
    ensures ok { OnOk result (out.new ≡ out.old ++ text_of Signed bytes.now) }
    ensures no_memory { OnErr result (out.new ≡ out.old) }
{
    let n = number(bytes);
    let half = half_of(bytes.len());
    if n < half {
        return put_decimal(alloc, n, out);
    }
    let below = half - (n - half);
    put_negative(alloc, below, out)
}

/// Appends the text of an unsigned number.
#[tactic(auto, unfolding(spec_formats::specs::ValueText::text_of))]
pub(crate) fn put_unsigned(alloc: Global, bytes: &[u8], out: &mut Octets) -> Result<(), NoMemory>
    requires size { IsNumberSize (length bytes.now) }
    ensures ok { OnOk result (out.new ≡ out.old ++ text_of Unsigned bytes.now) }
    ensures no_memory { OnErr result (out.new ≡ out.old) }
{
    put_decimal(alloc, number(bytes), out)
}

fn put_decimal(alloc: Global, n: u64, out: &mut Octets) -> Result<(), NoMemory>
    ensures ok { OnOk result (out.new ≡ out.old ++ decimal n) }
    ensures no_memory { OnErr result (out.new ≡ out.old) }
{
    let text = format!(in alloc; "{n}")?;
    out.put(alloc, text.as_bytes())?;
    Ok(())
}

fn put_negative(alloc: Global, n: u64, out: &mut Octets) -> Result<(), NoMemory>
    ensures ok { OnOk result (out.new ≡ out.old ++ 45 ∷ decimal n) }
    ensures no_memory { OnErr result (out.new ≡ out.old) }
{
    let text = format!(in alloc; "-{n}")?;
    out.put(alloc, text.as_bytes())?;
    Ok(())
}

/// The signed number of a text.
#[tactic(auto, unfolding(spec_formats::specs::ValueText::text_of))]
pub(crate) fn read_signed(
    alloc: Global,
    size: usize,
    text: &[u8],
) -> Result<Option<Octets>, NoMemory>
    requires { IsNumberSize size }
    ensures { IfOk result (Answers Signed size text.now) }
{
    match signed_number(half_of(size), text) {
        None => Ok(None),
        Some(n) => {
            let value = number_bytes(alloc, size, n)?;
            Ok(Some(value))
        }
    }
}

/// The unsigned number of a text.
#[tactic(auto, unfolding(spec_formats::specs::ValueText::text_of))]
pub(crate) fn read_unsigned(
    alloc: Global,
    size: usize,
    text: &[u8],
) -> Result<Option<Octets>, NoMemory>
    requires { IsNumberSize size }
    ensures { IfOk result (Answers Unsigned size text.now) }
{
    match unsigned_number(half_of(size), text) {
        None => Ok(None),
        Some(n) => {
            let value = number_bytes(alloc, size, n)?;
            Ok(Some(value))
        }
    }
}

// The number of two's complement whose text this is, in a range of twice the half.
fn signed_number(half: u64, text: &[u8]) -> Option<u64>
    requires { half ≤ 2 ^ 63 }
    ensures some { IfSome result (λ n. (n < 2 * half) × (text.now ≡ signed_text (2 * half) n)) }
    ensures none { IsNone result → (n : ℕ) → n < 2 * half → text.now ≢ signed_text (2 * half) n }
{
    if begins_with_minus(text) {
        negative_number(half, &text[1..])
    } else {
        number_below(half, text)
    }
}

fn begins_with_minus(text: &[u8]) -> bool
    ensures minus { result ≡ (slice_index text.now 0 == 45) }
    ensures length { IsTrue result → 0 < length text.now }
{
    match text {
        [] => false,
        [first, ..] => *first == b'-',
    }
}

// The number from the half on of which these are the digits behind the minus.
fn negative_number(half: u64, digits: &[u8]) -> Option<u64>
    requires { half ≤ 2 ^ 63 }
    ensures some { IfSome result (λ n. (half ≤ n) × (n < 2 * half) × (digits.now ≡ decimal (2 * half - n))) }
    ensures none { IsNone result → (n : ℕ) → half ≤ n → n < 2 * half → digits.now ≢ decimal (2 * half - n) }
{
    let lacking = read_decimal(digits)?;
    if 0 < lacking && lacking <= half {
        Some(half + (half - lacking))
    } else {
        None
    }
}

fn number_below(limit: u64, text: &[u8]) -> Option<u64>
    ensures some { IfSome result (λ n. (n < limit) × (text.now ≡ decimal n)) }
    ensures none { IsNone result → (n : ℕ) → n < limit → text.now ≢ decimal n }
{
    let n = read_decimal(text)?;
    if n < limit { Some(n) } else { None }
}

fn unsigned_number(half: u64, text: &[u8]) -> Option<u64>
    requires { half ≤ 2 ^ 63 }
    ensures some { IfSome result (λ n. (n < 2 * half) × (text.now ≡ decimal n)) }
    ensures none { IsNone result → (n : ℕ) → n < 2 * half → text.now ≢ decimal n }
{
    let n = read_decimal(text)?;
    if n / 2 < half { Some(n) } else { None }
}

// Half of the number of values of a size.
fn half_of(size: usize) -> u64
    requires { IsNumberSize size }
    ensures half { 2 * result ≡ 256 ^ size }
    ensures limit { result ≤ 2 ^ 63 }
{
    match size {
        1 => 0x80,
        2 => 0x8000,
        4 => 0x8000_0000,
        _ => 0x8000_0000_0000_0000,
    }
}

fn number(bytes: &[u8]) -> u64
    requires { IsNumberSize (length bytes.now) }
    ensures number { result ≡ number_of bytes.now }
    ensures range { result < 256 ^ length bytes.now }
{
    match bytes.len() {
        1 => u64::from(bytes[0]),
        2 => u64::from(get16(bytes, 0)),
        4 => u64::from(get32(bytes, 0)),
        _ => get64(bytes, 0),
    }
}

fn number_bytes(alloc: Global, size: usize, n: u64) -> Result<Octets, NoMemory>
    requires size { IsNumberSize size }
    requires range { n < 256 ^ size }
    ensures size { IfOk result (λ value. length value ≡ size) }
    ensures number { IfOk result (λ value. number_of value ≡ n) }
{
    let mut value = Octets::new(alloc);
    match size {
        1 => value.push(alloc, n as u8)?,
        2 => put16(alloc, &mut value, n as u16)?,
        4 => put32(alloc, &mut value, n as u32)?,
        _ => put64(alloc, &mut value, n)?,
    }
    Ok(value)
}
