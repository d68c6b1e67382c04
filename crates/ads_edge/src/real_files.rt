//! Files of the disk.

ghost use Rattle.std.specs.Prelude.{◌≡◌, ◌≤◌, None, IfOk, length, vec_len};
ghost use Rattle.ads_outside.specs.Limit.{IsWithinLimit};

use ads_base::{NoMemory, Octets};
use ads_outside::{Files, Got};
use std::alloc::{AllocError, Global};
use std::fs;
use std::io::{ErrorKind, Read};
use std::rt::Files as SystemFiles;

/// The greatest number of bytes of a file that is read.
const LIMIT: usize = 16_777_216;

/// Files of the disk, by their paths. What they hold is not told.
#[derive(Drop)]
pub struct RealFiles<R: SystemFiles + Drop> {
    alloc: Global,
    rt: R,
    buffer: Vec<u8>,
    faults: u64,
}

impl<R: SystemFiles + Drop> RealFiles<R> {
    /// The files that this runtime reaches, with a buffer to read them by.
    pub fn new(alloc: Global, rt: R) -> Result<RealFiles<R>, NoMemory> {
        Ok(RealFiles {
            alloc,
            rt,
            buffer: empty_buffer(alloc)?,
            faults: 0,
        })
    }
}

impl<R: SystemFiles + Drop> Files for RealFiles<R> {
    ghost use Rattle.std.specs.Prelude.{None};

    ghost state = { λ f. record { held = None; names = None; faults = f.faults } };

    fn faults(&self) -> u64 {
        self.faults
    }

    fn read(&mut self, name: &str) -> Got {
        let got = match fs::open(&self.rt, name) {
            Ok(mut file) => read_all(self.alloc, &mut file, self.buffer.as_mut_slice()),
            Err(_) => Got::Failed,
        };
        if matches!(&got, Got::Failed) {
            self.faults = self.faults.saturating_add(1);
        }
        got
    }
}

/// A buffer of 65,536 bytes.
pub(crate) fn empty_buffer(alloc: Global) -> Result<Vec<u8>, AllocError>
    ensures { IfOk result (λ buffer. vec_len buffer ≡ 65_536) }
{
    Vec::from_elem(alloc, 0u8, 65_536)
}

/// All bytes of a file, a buffer at a time.
pub(crate) fn read_all<F: Read>(alloc: Global, file: &mut F, buffer: &mut [u8]) -> Got
    ensures { IsWithinLimit result }
{
    let mut bytes = Octets::new(alloc);
    for _ in 0..u64::MAX {
        match file.read(buffer) {
            Ok(0) => return Got::Bytes(bytes),
            Ok(n) => {
                if n > LIMIT - bytes.len() {
                    return Got::TooLong;
                }
                if bytes.put(alloc, &buffer[..n]).is_err() {
                    return Got::Memory;
                }
            }
            Err(error) => {
                if error.kind() != ErrorKind::Interrupted {
                    return Got::Failed;
                }
            }
        }
    }
    Got::Failed
}
