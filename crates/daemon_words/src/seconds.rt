//! Seconds between two looks at what is to be saved.

ghost use Rattle.std.specs.Prelude.{◌<◌, ◌≤◌};

use ads_base::read_decimal;

/// A number of seconds from 1 to a day.
#[derive(Clone, Copy, Debug, PartialEq, Eq)]
pub struct Seconds {
    pub count: u32,
    ghost least: { 0 < count },
    ghost most: { count ≤ 86400 },
}

impl Seconds {
    ghost use Rattle.std.specs.Prelude.{◌≡◌, IfSome, decimal};

    /// Where nothing is said.
    pub fn usual() -> Seconds
        ensures { result.count ≡ 10 }
    {
        Seconds { count: 10 }
    }

    /// So many seconds, if they are in range.
    pub fn of_count(count: u64) -> Option<Seconds>
        ensures { IfSome result (λ s. s.count ≡ count) }
    {
        if 0 < count && count <= 86_400 {
            return Some(Seconds {
                count: count as u32,
            });
        }
        None
    }

    /// The seconds of a decimal text.
    pub fn of_text(text: &str) -> Option<Seconds>
        ensures { IfSome result (λ s. text.now ≡ decimal s.count) }
    {
        match read_decimal(text.as_bytes()) {
            Some(count) => Seconds::of_count(count),
            None => None,
        }
    }
}
