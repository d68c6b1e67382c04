//! Types, their layout and texts, descriptions of plants, and what a device holds: definitions in specs/, and laws
//! over them as functions with an empty body.
#![tactic(auto)]

ghost use Rattle.spec_plant.specs.BlockLaws.{ChangesAreExact, StandsWithinPart, TellsNamesApart};
ghost use Rattle.spec_plant.specs.FoundLaws.{FoundLieInSymbols};
ghost use Rattle.spec_plant.specs.Sound.{AcceptedAreSound, AcceptedAreNumberedApart};

/// Where a byte is changed, it is changed there, stands elsewhere as it did, and leaves each part as long as it was;
/// a byte stands under a name exactly where the name's part has so many; and names are told apart by a test.
pub fn bytes_stand_under_names()
    ensures changes { ChangesAreExact }
    ensures stands { StandsWithinPart }
    ensures names { TellsNamesApart }
{}

/// In the plant of an accepted description ports and symbols are found by their numbers and names, each symbol lies
/// in its area and begins with as many bytes as it has, and no two symbols of a port have a name or a byte in
/// common; and no two ports have one number.
pub fn accepted_are_sound()
    ensures sound { AcceptedAreSound }
    ensures numbers { AcceptedAreNumberedApart }
{}

/// What a name leads to lies within one of the symbols.
pub fn found_lie_in_symbols()
    ensures { FoundLieInSymbols }
{}
