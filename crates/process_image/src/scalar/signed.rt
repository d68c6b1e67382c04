//! Signed numbers.
ghost use Rattle.std.specs.Prelude.{◌≡◌, ℕ, ◌<◌, ◌^◌, length, slice_index, FitsSigned};
ghost use Rattle.std.specs.Int.{w8, w16, w32, w64, from_le_bytes, bytes_low_first, cast_unsigned, cast_signed};
ghost use Rattle.std.proofs.Common.{ap, ◌∙◌};
ghost use Rattle.std.proofs.Math.Nat.{mod-eq_of_lt};
ghost use Rattle.std.proofs.Math.Facts.{Fits-of_z};
ghost use Rattle.std.proofs.lemmas.Int.{to_z-of_z};
ghost use Rattle.std.proofs.lemmas.Nat.{from_le_bytes-to_le_bytes_2};
ghost use Rattle.std.proofs.lemmas.Nat.{from_le_bytes-to_le_bytes_4, from_le_bytes-to_le_bytes_8};

use super::Scalar;
use ads_base::{get16, get32, get64};

impl Scalar for i8 {
    ghost SIZE = { 1 };

    const SIZE: u32 = 1;

    ghost complement = { λ v. cast_unsigned w8 v };

    ghost value_of = { λ bytes. cast_signed w8 (slice_index bytes 0) };

    ghost IsValue = { λ v. FitsSigned w8 v };

    ghost loads_what_was_stored = { λ v fits.
        ap (cast_signed w8) (mod-eq_of_lt (Fits-of_z fits).fits)
        ∙ to_z-of_z w8 v fits };

    fn load(bytes: &[u8]) -> i8 {
        bytes[0].cast_signed()
    }

    fn store(self, out: &mut [u8]) {
        out[0] = self.cast_unsigned();
    }
}

impl Scalar for i16 {
    ghost SIZE = { 2 };

    const SIZE: u32 = 2;

    ghost complement = { λ v. cast_unsigned w16 v };

    ghost value_of = { λ bytes. cast_signed w16 (from_le_bytes w16 bytes) };

    ghost IsValue = { λ v. FitsSigned w16 v };

    ghost loads_what_was_stored = { λ v fits.
        ap (cast_signed w16) (from_le_bytes-to_le_bytes_2 (cast_unsigned w16 v) (Fits-of_z fits).fits)
        ∙ to_z-of_z w16 v fits };

    fn load(bytes: &[u8]) -> i16 {
        get16(bytes, 0).cast_signed()
    }

    fn store(self, out: &mut [u8]) {
        out.copy_from_slice(&self.to_le_bytes());
    }
}

impl Scalar for i32 {
    ghost SIZE = { 4 };

    const SIZE: u32 = 4;

    ghost complement = { λ v. cast_unsigned w32 v };

    ghost value_of = { λ bytes. cast_signed w32 (from_le_bytes w32 bytes) };

    ghost IsValue = { λ v. FitsSigned w32 v };

    ghost loads_what_was_stored = { λ v fits.
        ap (cast_signed w32) (from_le_bytes-to_le_bytes_4 (cast_unsigned w32 v) (Fits-of_z fits).fits)
        ∙ to_z-of_z w32 v fits };

    fn load(bytes: &[u8]) -> i32 {
        get32(bytes, 0).cast_signed()
    }

    fn store(self, out: &mut [u8]) {
        out.copy_from_slice(&self.to_le_bytes());
    }
}

impl Scalar for i64 {
    ghost SIZE = { 8 };

    const SIZE: u32 = 8;

    ghost complement = { λ v. cast_unsigned w64 v };

    ghost value_of = { λ bytes. cast_signed w64 (from_le_bytes w64 bytes) };

    ghost IsValue = { λ v. FitsSigned w64 v };

    ghost loads_what_was_stored = { λ v fits.
        ap (cast_signed w64) (from_le_bytes-to_le_bytes_8 (cast_unsigned w64 v) (Fits-of_z fits).fits)
        ∙ to_z-of_z w64 v fits };

    fn load(bytes: &[u8]) -> i64 {
        get64(bytes, 0).cast_signed()
    }

    fn store(self, out: &mut [u8]) {
        out.copy_from_slice(&self.to_le_bytes());
    }
}
