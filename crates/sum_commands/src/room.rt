//! Zeros, and numbers written over them.

ghost use Rattle.std.specs.Prelude.{◌≡◌, ◌≤◌, ◌+◌, ◌++◌, length, replicate, OnOk, OnErr};
ghost use Rattle.std.specs.Int.{w32, to_le_bytes};
ghost use Rattle.sum_commands.specs.Parts.{written_over};

use ads_base::{NoMemory, Octets};
use std::alloc::Global;
use std::mem;

// Appends zeros, of which most parts need none.
#[inline(always)]
pub(crate) fn put_zeros(alloc: Global, out: &mut Octets, count: u32) -> Result<(), NoMemory>
    ensures ok { OnOk result (out.new ≡ out.old ++ replicate count 0) }
    ensures no_memory { OnErr result (out.new ≡ out.old) }
{
    if count == 0 {
        return Ok(());
    }
    fill_up(alloc, out, count)
}

#[inline(never)]
fn fill_up(alloc: Global, out: &mut Octets, count: u32) -> Result<(), NoMemory>
    ensures ok { OnOk result (out.new ≡ out.old ++ replicate count 0) }
    ensures no_memory { OnErr result (out.new ≡ out.old) }
{
    let mut bytes = mem::replace(out, Octets::new(alloc)).into_vec();
    let filled = bytes.len() + count as usize;
    let grown = bytes.resize(filled, 0);
    *out = Octets::from_vec(bytes);
    grown?;
    Ok(())
}

// Writes a number over the bytes that stand at a place.
#[inline(always)]
pub(crate) fn write_at(out: &mut Octets, at: usize, number: u32)
    requires { at + 4 ≤ length out.old }
    ensures { out.new ≡ written_over at (to_le_bytes w32 number) out.old }
{
    out.as_mut_slice()[at..at + 4].copy_from_slice(&number.to_le_bytes());
}
