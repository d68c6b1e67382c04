//! Places at which a rule is broken.
ghost use Rattle.std.specs.Prelude.{◌≡◌, IsNone};
ghost use Rattle.spec_rules.specs.Places.{lesser};

/// The lesser of two places, where both are there.
pub fn lesser(a: Option<usize>, b: Option<usize>) -> Option<usize>
    ensures value { result ≡ lesser a b }
    ensures none { IsNone result → IsNone b }
{
    match (a, b) {
        (None, b) => b,
        (Some(i), None) => Some(i),
        (Some(i), Some(j)) => Some(i.min(j)),
    }
}
