//! Names of symbols: identifiers joined by full stops.
ghost use Rattle.std.specs.Prelude.{◌≡◌};
ghost use Rattle.name_paths.specs.Name.{is_symbol_name, identifiers_of};
ghost use Rattle.std.specs.List.{list_all};
ghost use Rattle.name_paths.specs.Identifier;

use crate::identifier::is_identifier;

/// The most bytes of a symbol's name.
pub const MAX_NAME: usize = 255;

/// Whether the text can be a symbol's name: identifiers joined by full stops, at most 255 bytes
/// in all.
pub fn is_symbol_name(text: &[u8]) -> bool
    ensures { result ≡ is_symbol_name text.now }
{
    text.len() <= MAX_NAME && are_identifiers(text)
}

fn are_identifiers(text: &[u8]) -> bool
    ensures { result ≡ list_all Identifier.is_identifier (identifiers_of text.now) }
{
    text.split(|c| *c == b'.').all(|part| is_identifier(part))
}
