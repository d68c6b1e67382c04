//! How the description's file is watched.

/// How the description's file is watched.
#[derive(Clone, Copy, Debug)]
pub struct WatchPlan {
    /// How many seconds other bytes than last have to stand unchanged before they are given; with 0 they are given at once.
    pub settle: u32,
    /// What is served first is not what the file held: whatever it holds is given, also where it is the same.
    pub anew: bool,
}

impl WatchPlan {
    ghost use Rattle.std.specs.Prelude.{◌≡◌, false};

    /// The file held what is served first, and other bytes are given at once.
    pub fn usual() -> WatchPlan
        ensures { result ≡ record { settle = 0; anew = false } }
    {
        WatchPlan {
            settle: 0,
            anew: false,
        }
    }
}
