//! What stands beside the connections, at equal places.

ghost use Rattle.std.specs.Prelude.{◌≡◌, remove};

/// What stands at a place goes, if something does.
#[tactic(auto, using(crate::proofs::TouchedLemmas::remove_past))]
pub fn remove_at<X: Drop>(column: &mut Vec<X>, i: usize)
    ensures { column.new.items ≡ remove column.old.items i }
{
    if i < column.len() {
        let _ = column.remove(i);
    }
}
