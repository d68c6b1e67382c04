//! Numbers of a document in the widths that a description has.
ghost use Rattle.std.specs.Prelude.{◌≡◌, ◌^◌, ◌<◌, option_map, IfSome};
ghost use Rattle.spec_rules.specs.Described.{natural_of};

use description_rules::natural_of;

/// A number in 8 bits.
pub fn number8(n: i64) -> u8
    requires { natural_of n < 2 ^ 8 }
    ensures { result ≡ natural_of n }
{
    natural_of(n) as u8
}

/// A number in 16 bits.
pub fn number16(n: i64) -> u16
    requires { natural_of n < 2 ^ 16 }
    ensures { result ≡ natural_of n }
{
    natural_of(n) as u16
}

/// A number in 32 bits.
pub fn number32(n: i64) -> u32
    requires { natural_of n < 2 ^ 32 }
    ensures { result ≡ natural_of n }
{
    natural_of(n) as u32
}

/// A number in 32 bits, where there is one.
pub fn maybe_number32(n: Option<i64>) -> Option<u32>
    requires { IfSome n (λ m. natural_of m < 2 ^ 32) }
    ensures { result ≡ option_map natural_of n }
{
    match n {
        None => None,
        Some(n) => Some(number32(n)),
    }
}
