//! How long a changed description is to stand before it is taken.

ghost use Rattle.std.specs.Prelude.{◌≤◌};

use ads_base::read_decimal;

/// A number of seconds of at most an hour.
#[derive(Clone, Copy, Debug, PartialEq, Eq)]
pub struct Settle {
    pub count: u32,
    ghost most: { count ≤ 3600 },
}

impl Settle {
    ghost use Rattle.std.specs.Prelude.{◌≡◌, ◌≢◌, ◌<◌, ℕ, IfSome, IsNone, decimal};

    /// So many seconds, if they are at most an hour.
    pub fn of_count(count: u64) -> Option<Settle>
        ensures some { IfSome result (λ s. s.count ≡ count) }
        ensures none { IsNone result → 3600 < count }
    {
        if count <= 3_600 {
            return Some(Settle {
                count: count as u32,
            });
        }
        None
    }

    /// The seconds of a decimal text.
    #[tactic(auto, using(crate::proofs::SettleLemmas::not_within))]
    pub fn of_text(text: &str) -> Option<Settle>
        ensures some { IfSome result (λ s. text.now ≡ decimal s.count) }
        ensures none { IsNone result → (n : ℕ) → n ≤ 3600 → text.now ≢ decimal n }
    {
        match read_decimal(text.as_bytes()) {
            Some(count) => Settle::of_count(count),
            None => None,
        }
    }
}
