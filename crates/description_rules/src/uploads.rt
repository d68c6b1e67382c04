//! Description rule 15: the uploads of ports.
ghost use Rattle.std.specs.Prelude.{◌≡◌, ◌^◌, [], length, map, nat_le, sum_by};
ghost use Rattle.spec_rules.specs.Places.{first_wrong};
ghost use Rattle.spec_rules.specs.PortRules.{wrong_upload, has_right_upload};
ghost use Rattle.type_layout.specs.NamedTypes.{types_of};
ghost use Rattle.description_rules.specs.KnownTypes.{IsKnown};
ghost use Rattle.description_rules.specs.Uploads.{written_length};
ghost use Rattle.description_table.specs.Views.{port_view, symbol_view};

use crate::known_types::KnownTypes;
use crate::type_text_lens::type_text_len;
use description_table::{WrittenPort, WrittenSymbol};

/// Rule 15: the upload of each port has at most 2,000,000 bytes.
#[tactic(auto, unfolding(spec_rules::specs::PortRules::wrong_upload))]
pub fn wrong_upload(known: &KnownTypes, ports: &[WrittenPort<'_>]) -> Option<usize>
    requires { IsKnown known.now }
    ensures { result ≡ wrong_upload (types_of known.now.types) (map port_view ports.now) }
{
    for (i, port) in ports.iter().enumerate() {
        if !has_right_upload(known, port) {
            return Some(i);
        }
    }
    None
}

fn has_right_upload(known: &KnownTypes, port: &WrittenPort<'_>) -> bool
    requires { IsKnown known.now }
    ensures { result ≡ has_right_upload (types_of known.now.types) (port_view port.now) }
{
    fits_upload(known, port.symbols.as_slice())
}

// Whether the entries of symbols have at most 2,000,000 bytes.
fn fits_upload(known: &KnownTypes, symbols: &[WrittenSymbol<'_>]) -> bool
    requires { IsKnown known.now }
    ensures { result ≡ nat_le (sum_by (written_length (types_of known.now.types)) (map symbol_view symbols.now)) 2000000 }
{
    let mut room: u128 = 2_000_000;
    for symbol in symbols {
        let length = entry_len(known, symbol);
        if length > room {
            return false;
        }
        room -= length;
    }
    true
}

// The bytes of a symbol's entry: 33 for numbers and ends of texts, and its name, type and comment.
fn entry_len(known: &KnownTypes, symbol: &WrittenSymbol<'_>) -> u128
    requires { IsKnown known.now }
    ensures { result ≡ written_length (types_of known.now.types) (symbol_view symbol.now) }
{
    let kind = type_text_len(known, symbol.kind);
    33 + symbol.name.len() as u128 + kind + symbol.comment.len() as u128
}
