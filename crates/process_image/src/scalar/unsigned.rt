//! Unsigned numbers: each is its own two's complement.
ghost use Rattle.std.specs.Prelude.{◌≡◌, ℕ, ◌<◌, ◌^◌, length, slice_index};
ghost use Rattle.std.specs.Int.{w16, w32, w64, from_le_bytes, bytes_low_first};
ghost use Rattle.std.proofs.Math.Nat.{mod-eq_of_lt};
ghost use Rattle.std.proofs.lemmas.Nat.{from_le_bytes-to_le_bytes_2};
ghost use Rattle.std.proofs.lemmas.Nat.{from_le_bytes-to_le_bytes_4, from_le_bytes-to_le_bytes_8};

use super::Scalar;
use ads_base::{get16, get32, get64};

impl Scalar for u8 {
    ghost SIZE = { 1 };

    const SIZE: u32 = 1;

    ghost complement = { λ v. v };

    ghost value_of = { λ bytes. slice_index bytes 0 };

    ghost IsValue = { λ v. v < 2 ^ 8 };

    ghost loads_what_was_stored = { λ v fits. mod-eq_of_lt fits };

    fn load(bytes: &[u8]) -> u8 {
        bytes[0]
    }

    fn store(self, out: &mut [u8]) {
        out[0] = self;
    }
}

impl Scalar for u16 {
    ghost SIZE = { 2 };

    const SIZE: u32 = 2;

    ghost complement = { λ v. v };

    ghost value_of = { λ bytes. from_le_bytes w16 bytes };

    ghost IsValue = { λ v. v < 2 ^ 16 };

    ghost loads_what_was_stored = { from_le_bytes-to_le_bytes_2 };

    fn load(bytes: &[u8]) -> u16 {
        get16(bytes, 0)
    }

    fn store(self, out: &mut [u8]) {
        out.copy_from_slice(&self.to_le_bytes());
    }
}

impl Scalar for u32 {
    ghost SIZE = { 4 };

    const SIZE: u32 = 4;

    ghost complement = { λ v. v };

    ghost value_of = { λ bytes. from_le_bytes w32 bytes };

    ghost IsValue = { λ v. v < 2 ^ 32 };

    ghost loads_what_was_stored = { from_le_bytes-to_le_bytes_4 };

    fn load(bytes: &[u8]) -> u32 {
        get32(bytes, 0)
    }

    fn store(self, out: &mut [u8]) {
        out.copy_from_slice(&self.to_le_bytes());
    }
}

impl Scalar for u64 {
    ghost SIZE = { 8 };

    const SIZE: u32 = 8;

    ghost complement = { λ v. v };

    ghost value_of = { λ bytes. from_le_bytes w64 bytes };

    ghost IsValue = { λ v. v < 2 ^ 64 };

    ghost loads_what_was_stored = { from_le_bytes-to_le_bytes_8 };

    fn load(bytes: &[u8]) -> u64 {
        get64(bytes, 0)
    }

    fn store(self, out: &mut [u8]) {
        out.copy_from_slice(&self.to_le_bytes());
    }
}
