//! Decimal numbers in texts: digits without sign and without superfluous zeros.

ghost use Rattle.std.specs.Prelude.{IsTrue, ◌↔◌, ◌≡◌, ◌≢◌, ℕ, ◌+◌, ◌*◌, ◌^◌, ◌<◌, ◌≤◌, ◌++◌, ◌∷◌, List, length, IfSome, IsNone, SomeIff};
ghost use Rattle.std.specs.Char.{digit_value};
ghost use Rattle.std.specs.Fmt.{decimal};
ghost use Rattle.ads_base.specs.Decimal.{IsSuperfluous};

/// The number that a text writes in decimal: digits without sign and without superfluous zeros. `None` for any other
/// text, and for a number that does not fit 64 bits.
pub fn read_decimal(text: &[u8]) -> Option<u64>
    ensures some { IfSome result (λ n. (n < 2 ^ 64) × (text.now ≡ decimal n)) }
    ensures none { IsNone result → (n : ℕ) → n < 2 ^ 64 → text.now ≢ decimal n }
{
    if has_superfluous_zero(text) {
        return None;
    }
    let mut value = 0u64;
    for byte in text {
        let digit = digit_of(*byte)?;
        value = with_digit(value, digit)?;
    }
    Some(value)
}

/// The decimal number before the first `stop` of a text, and the text behind that `stop`, which is no digit. `None`
/// where there is no `stop`, or where no such number stands before it.
pub fn split_decimal(text: &[u8], stop: u8) -> Option<(u64, &[u8])>
    requires { 10 ≤ digit_value stop }
    ensures some { IfSome result (λ (n, rest). (n < 2 ^ 64)
        × (text.now ≡ decimal n ++ stop ∷ rest.now)) }
    ensures none { IsNone result → (n : ℕ) (rest : List ℕ) → n < 2 ^ 64 → text.now ≢ decimal n ++ stop ∷ rest }
{
    for i in 0..text.len() {
        if text[i] == stop {
            let n = read_decimal(&text[..i])?;
            return Some((n, &text[i + 1..]));
        }
    }
    None
}

// No decimal number is the empty text, or a zero with a digit behind it.
fn has_superfluous_zero(text: &[u8]) -> bool
    ensures { IsTrue result ↔ IsSuperfluous text.now }
{
    text.is_empty() || (text[0] == b'0' && text.len() > 1)
}

fn digit_of(byte: u8) -> Option<u8>
    ensures { SomeIff result (digit_value byte < 10) (digit_value byte) }
{
    if byte >= b'0' && byte <= b'9' {
        Some(byte - b'0')
    } else {
        None
    }
}

fn with_digit(value: u64, digit: u8) -> Option<u64>
    requires { digit < 10 }
    ensures { SomeIff result (value * 10 + digit < 2 ^ 64) (value * 10 + digit) }
{
    value.checked_mul(10)?.checked_add(u64::from(digit))
}
