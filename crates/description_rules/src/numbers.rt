//! Numbers of a document.
ghost use Rattle.std.specs.Prelude.{◌≡◌};
ghost use Rattle.type_layout.specs.Shapes.{kind_of};
ghost use Rattle.spec_plant.specs.AcceptedTypes.{is_in_range};
ghost use Rattle.spec_rules.specs.PortRules.{is_between, is_natural};
ghost use Rattle.spec_rules.specs.SymbolRules.{is_signal};
ghost use Rattle.spec_rules.specs.Described.{natural_of};

use type_layout::Kind;

/// Whether a number is from the least to the greatest.
pub fn is_between(least: u32, greatest: u32, n: i64) -> bool
    ensures { result ≡ is_between least greatest n }
{
    least as i64 <= n && n <= greatest as i64
}

/// Whether a number is not below 0.
pub fn is_natural(n: i64) -> bool
    ensures { result ≡ is_natural n }
{
    0 <= n
}

/// A number that is not below 0, and 0 for one that is.
pub fn natural_of(n: i64) -> u64
    ensures { result ≡ natural_of n }
{
    if n < 0 { 0 } else { n as u64 }
}

/// Whether a signal is one of so many.
pub fn is_signal(signals: u32, n: i64) -> bool
    ensures { result ≡ is_signal signals n }
{
    0 <= n && n < signals as i64
}

/// Whether a number lies in the range of a base.
pub fn is_in_range(base: Kind, n: i64) -> bool
    ensures { result ≡ is_in_range (kind_of base) n }
{
    match base {
        Kind::Bool | Kind::Usint | Kind::Byte => 0 <= n && n < 0x100,
        Kind::Sint => -0x80 <= n && n < 0x80,
        Kind::Int => -0x8000 <= n && n < 0x8000,
        Kind::Uint | Kind::Word => 0 <= n && n < 0x1_0000,
        Kind::Dint => -0x8000_0000 <= n && n < 0x8000_0000,
        Kind::Udint | Kind::Dword | Kind::Time | Kind::Real => 0 <= n && n < 0x1_0000_0000,
        Kind::Lint => true,
        Kind::Ulint | Kind::Lword | Kind::Lreal => 0 <= n,
    }
}
