//! Words of a document: rights and areas.
ghost use Rattle.std.specs.Prelude.{◌≡◌, option_map, bytes_eq};
ghost use Rattle.spec_rules.specs.Described as described;
ghost use Rattle.spec_plant.specs.Plain.{is_base};
ghost use Rattle.type_layout.specs.Shapes.{kind_of};
ghost use Rattle.type_layout.specs.Descriptions.{rights_of, area_of};

use type_layout::{Area, Kind, Rights};

/// The rights that a word grants. None exactly where it is none of `read`, `write` and `control`.
pub fn read_rights(text: &[u8]) -> Option<Rights>
    ensures { option_map rights_of result ≡ described.rights_of text.now }
{
    if is_word(text, "read") {
        return Some(Rights::Read);
    }
    if is_word(text, "write") {
        return Some(Rights::Write);
    }
    if is_word(text, "control") {
        return Some(Rights::Control);
    }
    None
}

/// The area that a word names. None exactly where it is none of `inputs`, `outputs`, `memory`
/// and `data`.
pub fn read_area(text: &[u8]) -> Option<Area>
    ensures { option_map area_of result ≡ described.area_of text.now }
{
    if is_word(text, "inputs") {
        return Some(Area::Inputs);
    }
    if is_word(text, "outputs") {
        return Some(Area::Outputs);
    }
    if is_word(text, "memory") {
        return Some(Area::Memory);
    }
    if is_word(text, "data") {
        return Some(Area::Process);
    }
    None
}

fn is_word(text: &[u8], word: &str) -> bool
    ensures { result ≡ bytes_eq word.now text.now }
{
    word.as_bytes() == text
}

/// The base that a word names, in any case of letters. None exactly where no enumeration has it.
pub fn read_base(text: &[u8]) -> Option<Kind>
    ensures { option_map kind_of result ≡ described.base_of text.now }
{
    let kind = Kind::named(text)?;
    if is_base(kind) { Some(kind) } else { None }
}

fn is_base(kind: Kind) -> bool
    ensures { result ≡ is_base (kind_of kind) }
{
    match kind {
        Kind::Sint | Kind::Usint | Kind::Int | Kind::Uint => true,
        Kind::Dint | Kind::Udint | Kind::Lint | Kind::Ulint => true,
        _ => false,
    }
}
