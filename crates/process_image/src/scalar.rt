//! Numbers that can be kept in an image.
ghost use Rattle.std.specs.Prelude.{◌≡◌, ℕ, List, length};
ghost use Rattle.std.specs.Int.{bytes_low_first};

mod signed;
mod unsigned;

/// A number of one, two, four or eight bytes, signed or not. Its bytes are its two's complement,
/// the low byte first.
pub trait Scalar: Copy {
    ghost SIZE: { ℕ };

    /// The number of its bytes.
    const SIZE: u32;

    ghost complement: { Self → ℕ };

    ghost value_of: { List ℕ → Self };

    ghost IsValue: { Self → Type 0 };

    /// The number in its bytes.
    fn load(bytes: &[u8]) -> Self
        requires { length bytes.now ≡ SIZE }
        ensures { result ≡ value_of bytes.now };

    /// Writes the bytes of the number.
    fn store(self, out: &mut [u8])
        requires { length out.old ≡ SIZE }
        ensures { out.new ≡ bytes_low_first 0 SIZE (complement self) };

    ghost loads_what_was_stored: { (v : Self) → IsValue v
        → value_of (bytes_low_first 0 SIZE (complement v)) ≡ v };
}
