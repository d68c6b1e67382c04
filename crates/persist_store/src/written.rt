//! A file with bytes written into it.

ghost use Rattle.std.specs.Prelude.{◌≡◌, ◌+◌, ◌≤◌, ◌++◌, length, take, drop, replicate, IfOk, OnOk};
ghost use Rattle.spec_store.specs.Disk.{written, filled};

use ads_base::{NoMemory, Octets};
use std::alloc::Global;

/// A copy of a file with these bytes at a place; a gap behind its end is filled with zeros.
pub fn written_copy(alloc: Global, file: &[u8], at: u64, bytes: &[u8]) -> Result<Octets, NoMemory>
    ensures { IfOk result (λ new. new ≡ written at bytes.now file.now) }
{
    let at = at as usize;
    let mut new = front_of(alloc, file, at)?;
    new.put(alloc, bytes)?;
    if at < file.len() && bytes.len() < file.len() - at {
        new.put(alloc, &file[at + bytes.len()..])?;
    }
    Ok(new)
}

// The first bytes of a file, and zeros behind its end.
fn front_of(alloc: Global, file: &[u8], at: usize) -> Result<Octets, NoMemory>
    ensures { IfOk result (λ front. front ≡ take at (filled at file.now)) }
{
    let kept = if at < file.len() { &file[..at] } else { file };
    let mut front = kept.to_vec(alloc)?;
    front.resize(at, 0)?;
    Ok(Octets::from_vec(front))
}
