//! Frames of AMS/TCP and the division of a stream into them: definitions in specs/, and their laws as functions
//! with an empty body.
#![tactic(auto)]

ghost use Rattle.std.specs.Prelude.{ℕ, List};
ghost use Rattle.spec_frames.specs.Number.{AreBytes};
ghost use Rattle.spec_frames.specs.Laws.{ReadsNumbers, WritesNumbers, WritesBack, HasWidths};
ghost use Rattle.spec_frames.specs.Laws.{HasFront, HasOneDivision, Grows};

/// Little-endian numbers of 2, 4 and 8 bytes are those of Rust's `from_le_bytes` and `to_le_bytes`, both ways.
pub fn numbers_are_little_endian()
    ensures read { (bytes : List ℕ) → ReadsNumbers bytes }
    ensures written { (n : ℕ) → WritesNumbers n }
    ensures widths { (n : ℕ) → HasWidths n }
    ensures written_back { (bytes : List ℕ) → AreBytes bytes → WritesBack bytes }
{}

/// What stands at the front of a text of bytes, as it is computed, is a whole frame, an open text or a broken one.
pub fn fronts_are_told()
    ensures { (text : List ℕ) → AreBytes text → HasFront text }
{}

/// A stream of bytes has one division into frames and a rest that is open or broken, and no other.
pub fn one_division()
    ensures { (stream : List ℕ) → AreBytes stream → HasOneDivision stream }
{}

/// The division is a function of all bytes since the opening: in which pieces they come changes nothing.
pub fn pieces_do_not_matter()
    ensures { (stream more : List ℕ) → Grows stream more }
{}
