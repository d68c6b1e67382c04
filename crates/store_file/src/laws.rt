//! A law of the writes of a save.

ghost use Rattle.std.specs.Prelude.{◌≡◌, ◌+◌, ◌∷◌, [], Bool, true, Some};
ghost use Rattle.spec_store.specs.Slots.{Slot, behind_gate};
ghost use Rattle.spec_store.specs.Saves.{place_of};
ghost use Rattle.store_file.specs.Writes.{body_in_write, is_opening};

/// Of the three steps of a save the second tells its body, and the third is the one that opens a gate.
pub fn a_save_tells_its_body()
    ensures body { (is_second : Bool) (slot : Slot) → body_in_write (place_of is_second + 1) (behind_gate slot) ≡ Some slot.body }
    ensures gate { (is_second : Bool) → is_opening (place_of is_second) (1 ∷ []) ≡ true }
{}
