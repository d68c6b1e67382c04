//! How many digits numbers are written with.
ghost use Rattle.std.specs.Prelude.{◌≡◌, ◌≤◌, ◌+◌, ◌^◌, length, decimal};
ghost use Rattle.std.specs.Fmt.{signed_decimal};

/// The number of decimal digits of a number.
#[tactic(auto, using(crate::proofs::LengthLemmas::digits))]
pub fn decimal_len(n: u64) -> u128
    ensures value { result ≡ length (decimal n) }
    ensures bound { result ≤ n + 1 }
{
    if n < 10 {
        return 1;
    }
    decimal_len(n / 10) + 1
}

/// The number of bytes of a number in decimal digits, behind a minus sign where it is below zero.
pub fn signed_decimal_len(n: i64) -> u128
    ensures value { result ≡ length (signed_decimal n) }
    ensures bound { result ≤ 2 ^ 65 }
{
    if n < 0 {
        1 + decimal_len(n.unsigned_abs())
    } else {
        decimal_len(n as u64)
    }
}
