//! Room in front of what is written, and bytes written over it.

ghost use Rattle.std.specs.Prelude.{◌≡◌, ◌≤◌, ◌+◌, ◌++◌, length, take, drop, OnOk, OnErr};

use ads_base::{NoMemory, Octets};
use std::alloc::Global;

/// Bytes of the AMS/TCP header: two reserved, and the length of the AMS packet.
pub(crate) const FRAME_HEADER: usize = 6;

/// Bytes of the AMS/TCP header and the AMS header.
pub(crate) const HEADERS: usize = 38;

const ZEROS: [u8; HEADERS] = [0; HEADERS];

/// Appends room for so many bytes.
pub(crate) fn put_room(alloc: Global, out: &mut Octets, len: usize) -> Result<(), NoMemory>
    requires { len ≤ 38 }
    ensures long { OnOk result (length out.new ≡ length out.old + len) }
    ensures begins { OnOk result (take (length out.old) out.new ≡ out.old) }
    ensures no_memory { OnErr result (out.new ≡ out.old) }
{
    out.put(alloc, &ZEROS[..len])?;
    Ok(())
}

/// Writes the bytes over those that stand at a place.
#[inline(always)]
pub(crate) fn write_at(out: &mut Octets, at: usize, bytes: &[u8])
    requires { at + length bytes.now ≤ length out.old }
    ensures { out.new ≡ take at out.old ++ bytes.now ++ drop (at + length bytes.now) out.old }
{
    out.as_mut_slice()[at..at + bytes.len()].copy_from_slice(bytes);
}
