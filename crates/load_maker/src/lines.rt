//! Lines of a script.

ghost use Rattle.std.specs.Prelude.{◌≡◌, ◌≤◌, ◌++◌, length, OnOk};
ghost use Rattle.std.specs.Fmt.{decimal};
ghost use Rattle.hex.specs.Hex.{encode_lower};
ghost use Rattle.load_maker.specs.MadeLines.{line_text, Opens, Sends, Ticks};

use ads_base::{NoMemory, Octets};
use itoa::Buffer;
use std::alloc::Global;

/// Appends a line that opens a connection.
pub fn put_open(alloc: Global, out: &mut Octets, conn: u32) -> Result<(), NoMemory>
    ensures { OnOk result (out.new ≡ out.old ++ line_text (Opens conn)) }
{
    put_counted(alloc, out, b"open ", u64::from(conn))?;
    out.push(alloc, b'\n')?;
    Ok(())
}

/// Appends a line of bytes that come on a connection.
pub fn put_sent(alloc: Global, out: &mut Octets, conn: u32, bytes: &[u8]) -> Result<(), NoMemory>
    ensures { OnOk result (out.new ≡ out.old ++ line_text (Sends conn bytes.now)) }
{
    put_counted(alloc, out, b"bytes ", u64::from(conn))?;
    out.push(alloc, b' ')?;
    put_hex(alloc, out, bytes)?;
    out.push(alloc, b'\n')?;
    Ok(())
}

/// Appends a line that says the time.
pub fn put_tick(alloc: Global, out: &mut Octets, moment: u64) -> Result<(), NoMemory>
    ensures { OnOk result (out.new ≡ out.old ++ line_text (Ticks moment)) }
{
    put_counted(alloc, out, b"tick ", moment)?;
    out.push(alloc, b'\n')?;
    Ok(())
}

// A word, and a number in decimal digits.
fn put_counted(alloc: Global, out: &mut Octets, word: &[u8], number: u64) -> Result<(), NoMemory>
    ensures { OnOk result (out.new ≡ out.old ++ (word.now ++ decimal number)) }
{
    out.put(alloc, word)?;
    let mut digits = Buffer::new();
    out.put(alloc, digits.format(number).as_bytes())?;
    Ok(())
}

// Bytes as hex digits, in lower case.
fn put_hex(alloc: Global, out: &mut Octets, bytes: &[u8]) -> Result<(), NoMemory>
    ensures { OnOk result (out.new ≡ out.old ++ encode_lower bytes.now) }
{
    let mut left = bytes;
    while 100 < left.len() {
        let (first, behind) = left.split_at(100);
        put_digits(alloc, out, first)?;
        left = behind;
    }
    put_digits(alloc, out, left)
}

// The hex digits of so few bytes that they have room on the stack.
fn put_digits(alloc: Global, out: &mut Octets, bytes: &[u8]) -> Result<(), NoMemory>
    requires { length bytes.now ≤ 100 }
    ensures { OnOk result (out.new ≡ out.old ++ encode_lower bytes.now) }
{
    let mut room = [0; 200];
    let digits = &mut room[..2 * bytes.len()];
    match hex::encode_to_slice(bytes, digits) {
        Ok(()) => out.put(alloc, digits),
        Err(_) => unreachable!(),
    }
}
