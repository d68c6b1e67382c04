//! Parts of printed lines.

ghost use Rattle.std.specs.Prelude.{◌≡◌, ◌++◌, OnOk, OnErr};
ghost use Rattle.std.specs.Fmt.{decimal};
ghost use Rattle.hex.specs.Hex.{encode_lower};

use ads_base::{NoMemory, Octets};
use std::alloc::Global;

/// Appends a decimal number.
pub fn put_number(alloc: Global, out: &mut Octets, number: u64) -> Result<(), NoMemory>
    ensures ok { OnOk result (out.new ≡ out.old ++ decimal number) }
    ensures no_memory { OnErr result (out.new ≡ out.old) }
{
    let digits = number.to_string(alloc)?;
    out.put(alloc, digits.as_bytes())?;
    Ok(())
}

/// Appends bytes as hex digits, in lower case.
pub fn put_hex(alloc: Global, out: &mut Octets, bytes: &[u8]) -> Result<(), NoMemory>
    ensures { OnOk result (out.new ≡ out.old ++ encode_lower bytes.now) }
{
    let digits = hex::encode(alloc, bytes)?;
    out.put(alloc, digits.as_bytes())?;
    Ok(())
}

/// Appends a word and a number in decimal digits.
pub fn put_counted(
    alloc: Global,
    out: &mut Octets,
    word: &[u8],
    number: u64,
) -> Result<(), NoMemory>
    ensures ok { OnOk result (out.new ≡ out.old ++ (word.now ++ decimal number)) }
    ensures no_memory { OnErr result (out.new ≡ out.old) }
{
    let before = out.len();
    out.put(alloc, word)?;
    let put = put_number(alloc, out, number);
    out.cut_back(before, put)
}
