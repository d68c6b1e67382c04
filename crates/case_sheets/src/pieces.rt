//! Texts that are cut at a byte, and the bytes that a word writes.

use crate::fault::Fault;
use crate::folder::Sheet;
use ads_base::{NoMemory, Octets, read_decimal};
use std::alloc::Global;

/// The text before the first such byte outside of quotes, and the text behind that byte, where there is one.
pub fn cut_at(text: &[u8], stop: u8) -> (&[u8], Option<&[u8]>) {
    let mut quoted = false;
    let mut escaped = false;
    for i in 0..text.len() {
        let byte = text[i];
        if escaped {
            escaped = false;
        } else if quoted && byte == b'\\' {
            escaped = true;
        } else if byte == b'"' {
            quoted = !quoted;
        } else if byte == stop && !quoted {
            return (&text[..i], Some(&text[i + 1..]));
        }
    }
    (text, None)
}

/// Appends the bytes that a word writes: pieces joined by `+`, each hexadecimal digits, a text in quotes or the file
/// `@NAME`, and each perhaps followed by `*N`, which says how often.
pub fn put_word(
    alloc: Global,
    sheets: &[Sheet],
    word: &[u8],
    out: &mut Octets,
) -> Result<(), Fault> {
    let mut rest = word;
    for _ in 0..word.len() {
        let (piece, behind) = cut_at(rest, b'+');
        put_piece(alloc, sheets, piece, out)?;
        match behind {
            Some(behind) => rest = behind,
            None => return Ok(()),
        }
    }
    Err(Fault::BadArgument)
}

fn put_piece(alloc: Global, sheets: &[Sheet], piece: &[u8], out: &mut Octets) -> Result<(), Fault> {
    let (unit, times) = cut_at(piece, b'*');
    let Some(times) = times else {
        return put_unit(alloc, sheets, unit, out);
    };
    let Some(times) = read_decimal(times) else {
        return Err(Fault::BadArgument);
    };
    let mut bytes = Octets::new(alloc);
    put_unit(alloc, sheets, unit, &mut bytes)?;
    put_often(alloc, bytes.as_slice(), times, out)?;
    Ok(())
}

// Appends bytes so often: for each binary digit of the number, from the highest on, what there is is doubled, and the
// bytes are put once more where the digit is 1.
fn put_often(alloc: Global, bytes: &[u8], times: u64, out: &mut Octets) -> Result<(), NoMemory> {
    let mut all = Octets::new(alloc);
    for digit in 0..64u32 {
        let half = Octets::copy_of(alloc, all.as_slice())?;
        all.put(alloc, half.as_slice())?;
        if (times >> (63 - digit)) % 2 == 1 {
            all.put(alloc, bytes)?;
        }
    }
    out.put(alloc, all.as_slice())
}

fn put_unit(alloc: Global, sheets: &[Sheet], unit: &[u8], out: &mut Octets) -> Result<(), Fault> {
    match unit {
        [] => Err(Fault::BadArgument),
        [b'"', text @ .., b'"'] => put_quoted(alloc, text, out),
        [b'@', name @ ..] => put_file(alloc, sheets, name, out),
        _ => put_digits(alloc, unit, out),
    }
}

fn put_file(alloc: Global, sheets: &[Sheet], name: &[u8], out: &mut Octets) -> Result<(), Fault> {
    for sheet in sheets {
        if sheet.name.as_bytes() == name {
            out.put(alloc, sheet.bytes.as_slice())?;
            return Ok(());
        }
    }
    Err(Fault::BadArgument)
}

// The bytes of an even number of hexadecimal digits.
fn put_digits(alloc: Global, digits: &[u8], out: &mut Octets) -> Result<(), Fault> {
    let mut rest = digits;
    for _ in 0..digits.len() {
        match rest {
            [] => break,
            [high, low, others @ ..] => {
                out.push(alloc, byte_of(*high, *low)?)?;
                rest = others;
            }
            _ => return Err(Fault::BadArgument),
        }
    }
    Ok(())
}

fn byte_of(high: u8, low: u8) -> Result<u8, Fault> {
    match (digit_of(high), digit_of(low)) {
        (Some(high), Some(low)) => Ok(high << 4 | low),
        _ => Err(Fault::BadArgument),
    }
}

fn digit_of(digit: u8) -> Option<u8> {
    match digit {
        b'0'..=b'9' => Some(digit - b'0'),
        b'a'..=b'f' => Some(digit - b'a' + 10),
        b'A'..=b'F' => Some(digit - b'A' + 10),
        _ => None,
    }
}

// The text between quotes, in which `\n`, `\\`, `\"` and `\x` with two digits stand for a byte.
fn put_quoted(alloc: Global, text: &[u8], out: &mut Octets) -> Result<(), Fault> {
    let mut rest = text;
    for _ in 0..text.len() {
        match rest {
            [] => break,
            [b'\\', b'x', high, low, others @ ..] => {
                out.push(alloc, byte_of(*high, *low)?)?;
                rest = others;
            }
            [b'\\', b'n', others @ ..] => {
                out.push(alloc, b'\n')?;
                rest = others;
            }
            [b'\\', byte, others @ ..] if *byte == b'\\' || *byte == b'"' => {
                out.push(alloc, *byte)?;
                rest = others;
            }
            [b'\\' | b'"', ..] => return Err(Fault::BadArgument),
            [byte, others @ ..] => {
                out.push(alloc, *byte)?;
                rest = others;
            }
        }
    }
    Ok(())
}
