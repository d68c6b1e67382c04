//! What holds of all types: a canonical text is read back.

ghost use Rattle.spec_plant.specs.WrittenTypes.{IsReadBack};

/// The canonical text of an accepted type is read back as that type: its bounds, and its element by name.
pub fn canonical_texts_are_read_back()
    ensures { IsReadBack }
{}
