//! Laws of areas, of the names of their bytes, and of the bytes of a port.

ghost use Rattle.spec_machine.specs.AreaNames.{TilesGiveNames, SpansGiveNames, NamesAreOneToOne};
ghost use Rattle.spec_machine.specs.AreaNames.{NamesAreOfAreas};
ghost use Rattle.spec_machine.specs.AreaContent.{ContentIsOfTiles, ReadsContent, WritesContent};
ghost use Rattle.spec_machine.specs.PortLaws.{ReadsImage, ReadsBit, ReadsStates, ReadsOwn};
ghost use Rattle.spec_machine.specs.PortLaws.{WritesImage, WritesBit, SetsStates, LeavesOtherPorts};
ghost use Rattle.spec_machine.specs.PortLaws.{StepsSignals, BeginsWithFirstImage, ReloadsImage};
ghost use Rattle.spec_machine.specs.PortLaws.{ReloadsNewPort};
ghost use Rattle.spec_machine.specs.NumberedPlaces.{FoundPlacesAreSame, SamePlacesHaveSameBytes};
ghost use Rattle.spec_machine.specs.NumberedPlaces.{PlacesMoveAlike};
ghost use Rattle.spec_machine.specs.WatchedRanges.{WatchedMoveAlike};
ghost use Rattle.spec_machine.specs.WorldBytes.{AreasAreAtTheirPorts, WritesOnePort, TicksAllPorts};
ghost use Rattle.spec_machine.specs.WritableBytes.{WritesBySymbols, WritesInSymbol};

/// The symbol or the gap at an offset of an area gives the name of the byte there; bytes of a symbol in a row are bytes
/// of its area in a row; and no two bytes of a port have one name.
pub fn bytes_have_names()
    ensures tiles { TilesGiveNames }
    ensures spans { SpansGiveNames }
    ensures one_to_one { NamesAreOneToOne }
    ensures areas { NamesAreOfAreas }
{}

/// The content of an area is its symbols' bytes and its gaps one behind another; what is read of it is a part of it, and
/// what is written stands there, with all else as it was.
pub fn areas_have_content()
    ensures tiles { ContentIsOfTiles }
    ensures reads { ReadsContent }
    ensures writes { WritesContent }
{}

/// What is read under the names of a port's bytes stands in its image, and so do its state words.
pub fn reads_are_of_the_image()
    ensures bytes { ReadsImage }
    ensures bit { ReadsBit }
    ensures states { ReadsStates }
    ensures own { ReadsOwn }
{}

/// What is written under the names of a port's bytes stands in its image from then on, and a control sets its state
/// words; what is written at another port leaves both.
pub fn writes_are_of_the_image()
    ensures bytes { WritesImage }
    ensures bit { WritesBit }
    ensures states { SetsStates }
    ensures elsewhere { LeavesOtherPorts }
{}

/// Bytes of an area, a bit of one, and bytes of a symbol may be written exactly where the symbols that stand there may.
pub fn symbols_tell_who_writes()
    ensures ranges { WritesBySymbols }
    ensures symbols { WritesInSymbol }
{}

/// A tick leaves in the image of each port what the signals write there.
pub fn signals_step_in_the_image()
    ensures { StepsSignals }
{}

/// In a new world each port has its first image and runs. After a reload a port that was there has the bytes of its
/// kept symbols in their new places, first bytes elsewhere, and its state words; another port begins as in a new world.
pub fn worlds_begin_with_images()
    ensures first { BeginsWithFirstImage }
    ensures reloaded { ReloadsImage }
    ensures new_port { ReloadsNewPort }
{}

/// What a name leads to is one place by name and by number; the same places have the same bytes; and a reload moves places and watched ranges by
/// number as it moves them by name.
pub fn numbers_move_as_names()
    ensures found { FoundPlacesAreSame }
    ensures bytes { SamePlacesHaveSameBytes }
    ensures places { PlacesMoveAlike }
    ensures watched { WatchedMoveAlike }
{}

/// What is written at one port leaves the bytes of all others, and a tick steps all signals at all ports.
pub fn worlds_hold_all_ports()
    ensures areas { AreasAreAtTheirPorts }
    ensures writes { WritesOnePort }
    ensures ticks { TicksAllPorts }
{}
