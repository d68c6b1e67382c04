//! Description rule 11: types of symbols.
ghost use Rattle.std.specs.Prelude.{◌≡◌, [], map, false};
ghost use Rattle.std.specs.Option.{option_map_or};
ghost use Rattle.spec_rules.specs.Written as rules;
ghost use Rattle.spec_rules.specs.Places.{first_wrong};
ghost use Rattle.spec_plant.specs.Shapes.{shape_of_text};
ghost use Rattle.spec_rules.specs.SymbolRules.{wrong_type, is_small};
ghost use Rattle.type_layout.specs.NamedTypes.{types_of};
ghost use Rattle.description_rules.specs.KnownTypes.{IsKnown};
ghost use Rattle.description_table.specs.Views.{port_view, symbol_view};

use crate::known_types::{KnownTypes, is_small_type};
use description_table::{WrittenPort, WrittenSymbol};

/// Rule 11: types of symbols.
#[tactic(auto, unfolding(spec_rules::specs::SymbolRules::wrong_type))]
pub fn wrong_type(known: &KnownTypes, ports: &[WrittenPort<'_>]) -> Option<u128>
    requires known { IsKnown known.now }
    ensures { result ≡ wrong_type (types_of known.now.types) (map port_view ports.now) }
{
    let mut count: u128 = 0;
    for port in ports {
        if let Some(place) = wrong_type_in(known, port.symbols.as_slice()) {
            return Some(count + place as u128);
        }
        count += port.symbols.len() as u128;
    }
    None
}

fn wrong_type_in(known: &KnownTypes, symbols: &[WrittenSymbol<'_>]) -> Option<usize>
    requires known { IsKnown known.now }
    ensures { result ≡ first_wrong (λ before (s : rules.WrittenSymbol). option_map_or (is_small (types_of known.now.types))
        (shape_of_text (types_of known.now.types) s.type) false) [] (map symbol_view symbols.now) }
{
    for (i, symbol) in symbols.iter().enumerate() {
        if !is_small_type(known, symbol.kind) {
            return Some(i);
        }
    }
    None
}
