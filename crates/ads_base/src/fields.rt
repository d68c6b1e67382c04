//! Numbers on the wire: little-endian, of 16, 32 and 64 bits.

ghost use Rattle.std.specs.Prelude.{◌≡◌, ◌+◌, ◌≤◌, ◌++◌, length, take, drop, OnOk, OnErr};
ghost use Rattle.std.specs.Int.{w16, w32, w64, from_le_bytes, to_le_bytes};

use crate::{NoMemory, Octets};
use byteorder::{ByteOrder, LittleEndian};
use std::alloc::Global;

/// The 16-bit number in two bytes, the low byte first.
#[inline(always)]
pub fn get16(bytes: &[u8], at: usize) -> u16
    requires { at + 2 ≤ length bytes.now }
    ensures { result ≡ from_le_bytes w16 (take 2 (drop at bytes.now)) }
{
    LittleEndian::read_u16(&bytes[at..at + 2])
}

/// The 32-bit number in four bytes, the low byte first.
#[inline(always)]
pub fn get32(bytes: &[u8], at: usize) -> u32
    requires { at + 4 ≤ length bytes.now }
    ensures { result ≡ from_le_bytes w32 (take 4 (drop at bytes.now)) }
{
    LittleEndian::read_u32(&bytes[at..at + 4])
}

/// The 64-bit number in eight bytes, the low byte first.
#[inline(always)]
pub fn get64(bytes: &[u8], at: usize) -> u64
    requires { at + 8 ≤ length bytes.now }
    ensures { result ≡ from_le_bytes w64 (take 8 (drop at bytes.now)) }
{
    LittleEndian::read_u64(&bytes[at..at + 8])
}

/// Appends a 16-bit number, the low byte first.
#[inline(always)]
pub fn put16(alloc: Global, out: &mut Octets, v: u16) -> Result<(), NoMemory>
    ensures ok { OnOk result (out.new ≡ out.old ++ to_le_bytes w16 v) }
    ensures no_memory { OnErr result (out.new ≡ out.old) }
{
    let mut field = [0u8; 2];
    LittleEndian::write_u16(&mut field, v);
    out.put_array(alloc, &field)
}

/// Appends a 32-bit number, the low byte first.
#[inline(always)]
pub fn put32(alloc: Global, out: &mut Octets, v: u32) -> Result<(), NoMemory>
    ensures ok { OnOk result (out.new ≡ out.old ++ to_le_bytes w32 v) }
    ensures no_memory { OnErr result (out.new ≡ out.old) }
{
    let mut field = [0u8; 4];
    LittleEndian::write_u32(&mut field, v);
    out.put_array(alloc, &field)
}

/// Appends a 64-bit number, the low byte first.
#[inline(always)]
pub fn put64(alloc: Global, out: &mut Octets, v: u64) -> Result<(), NoMemory>
    ensures ok { OnOk result (out.new ≡ out.old ++ to_le_bytes w64 v) }
    ensures no_memory { OnErr result (out.new ≡ out.old) }
{
    let mut field = [0u8; 8];
    LittleEndian::write_u64(&mut field, v);
    out.put_array(alloc, &field)
}
