//! Description rule 13: initial bytes, comments and writers of symbols.
ghost use Rattle.std.specs.Prelude.{◌≡◌, [], length, map, not, bytes_eq, true, false, option_map, is_none, nat_lt, nat_le, ◌&&◌, IfOk};
ghost use Rattle.std.specs.List.{list_all};
ghost use Rattle.spec_plant.specs.Accepted.{begins_with_value};
ghost use Rattle.spec_plant.specs.AcceptedTypes.{is_comment};
ghost use Rattle.spec_plant.specs.Listed as listed;
ghost use Rattle.spec_rules.specs.Written as rules;
ghost use Rattle.spec_rules.specs.Places.{first_wrong};
ghost use Rattle.spec_rules.specs.SymbolRules.{wrong_content, is_right_content, is_right_initial, are_right_bytes, are_right_writers, is_right_writer};
ghost use Rattle.spec_rules.specs.Described.{shape_described, bytes_of_hex};
ghost use Rattle.type_layout.specs.Shapes.{elem_of};
ghost use Rattle.type_layout.specs.NamedTypes.{types_of};
ghost use Rattle.description_rules.specs.KnownTypes.{IsKnown};
ghost use Rattle.description_table.specs.Views.{port_view, symbol_view, text_view};

use crate::enum_values::is_value_at;
use crate::known_types::{KnownTypes, text_size};
use crate::named_shapes::described_shape;
use crate::names::is_comment;
use crate::nets::read_net;
use ads_base::NoMemory;
use description_table::{WrittenPort, WrittenSymbol};
use hex::FromHexError;
use std::alloc::Global;
use type_layout::Elem;

/// Rule 13: initial bytes, comments and writers.
#[tactic(auto, unfolding(spec_rules::specs::SymbolRules::wrong_content))]
pub fn wrong_content(
    alloc: Global,
    known: &KnownTypes,
    ports: &[WrittenPort<'_>],
) -> Result<Option<u128>, NoMemory>
    requires known { IsKnown known.now }
    ensures { IfOk result (λ place. place ≡ wrong_content (types_of known.now.types) (map port_view ports.now)) }
{
    let mut count: u128 = 0;
    for port in ports {
        if let Some(place) = wrong_content_in(alloc, known, port.symbols.as_slice())? {
            return Ok(Some(count + place as u128));
        }
        count += port.symbols.len() as u128;
    }
    Ok(None)
}

fn wrong_content_in(
    alloc: Global,
    known: &KnownTypes,
    symbols: &[WrittenSymbol<'_>],
) -> Result<Option<usize>, NoMemory>
    requires known { IsKnown known.now }
    ensures { IfOk result (λ place. place ≡ first_wrong (λ before (s : rules.WrittenSymbol). is_right_content (types_of known.now.types) s) []
        (map symbol_view symbols.now)) }
{
    for (i, symbol) in symbols.iter().enumerate() {
        match is_right_content(alloc, known, symbol) {
            Err(e) => return Err(e),
            Ok(false) => return Ok(Some(i)),
            Ok(true) => {}
        }
    }
    Ok(None)
}

fn is_right_content(
    alloc: Global,
    known: &KnownTypes,
    symbol: &WrittenSymbol<'_>,
) -> Result<bool, NoMemory>
    requires known { IsKnown known.now }
    ensures { IfOk result (λ right. right ≡ is_right_content (types_of known.now.types) (symbol_view symbol.now)) }
{
    match is_right_initial(alloc, known, symbol) {
        Err(e) => Err(e),
        Ok(right) => Ok(right && is_comment(symbol.comment) && are_right_writers(symbol)),
    }
}

fn is_right_initial(
    alloc: Global,
    known: &KnownTypes,
    symbol: &WrittenSymbol<'_>,
) -> Result<bool, NoMemory>
    requires known { IsKnown known.now }
    ensures { IfOk result (λ right. right ≡ is_right_initial (types_of known.now.types)
        (shape_described (types_of known.now.types) symbol.now.kind.now) (option_map text_view symbol.now.initial)) }
{
    let Some(text) = symbol.initial else {
        return Ok(true);
    };
    match read_hex(alloc, text) {
        Err(e) => Err(e),
        Ok(None) => Ok(false),
        Ok(Some(bytes)) => Ok(are_right_bytes(known, symbol.kind, bytes.as_slice())),
    }
}

fn are_right_bytes(known: &KnownTypes, text: &[u8], bytes: &[u8]) -> bool
    requires known { IsKnown known.now }
    ensures { result ≡ are_right_bytes (types_of known.now.types) (shape_described (types_of known.now.types) text.now) bytes.now }
{
    bytes.len() as u128 == text_size(known, text) && begins_with_value(known, text, bytes)
}

// Whether bytes are those of a value, where the type that a text names is an enumeration.
fn begins_with_value(known: &KnownTypes, text: &[u8], bytes: &[u8]) -> bool
    requires { IsKnown known.now }
    ensures { result ≡ begins_with_value (types_of known.now.types) (shape_described (types_of known.now.types) text.now) bytes.now }
{
    let shape = described_shape(known, text);
    if shape.count == 0 {
        begins_elem(known, shape.elem, bytes)
    } else {
        true
    }
}

fn begins_elem(known: &KnownTypes, elem: Elem, bytes: &[u8]) -> bool
    ensures { result ≡ begins_with_value (types_of known.now.types) (listed.One (elem_of elem)) bytes.now }
{
    match elem {
        Elem::Enum(place) => is_value_at(known.types.as_slice(), place as usize, bytes),
        _ => true,
    }
}

// The bytes of hexadecimal text.
pub fn read_hex(alloc: Global, text: &[u8]) -> Result<Option<Vec<u8>>, NoMemory>
    ensures { IfOk result (λ found. option_map (λ bytes. bytes.items) found ≡ bytes_of_hex text.now) }
{
    match hex::decode(alloc, text) {
        Ok(bytes) => Ok(Some(bytes)),
        Err(FromHexError::OutOfMemory) => Err(NoMemory),
        Err(_) => Ok(None),
    }
}

fn are_right_writers(symbol: &WrittenSymbol<'_>) -> bool
    ensures { result ≡ are_right_writers (symbol_view symbol.now).writers }
{
    match &symbol.writers {
        None => true,
        Some(texts) => are_nets(texts.as_slice()),
    }
}

fn are_nets(texts: &[&[u8]]) -> bool
    ensures { result ≡ (nat_lt 0 (length (map text_view texts.now)) && nat_le (length (map text_view texts.now)) 64
        && is_none (first_wrong is_right_writer [] (map text_view texts.now))) }
{
    0 < texts.len() && texts.len() <= 64 && first_wrong_writer(texts).is_none()
}

fn first_wrong_writer(texts: &[&[u8]]) -> Option<usize>
    ensures { result ≡ first_wrong is_right_writer [] (map text_view texts.now) }
{
    for (i, text) in texts.iter().enumerate() {
        if !is_right_writer(&texts[..i], text) {
            return Some(i);
        }
    }
    None
}

#[tactic(auto, using(crate::proofs::Mapped::mapped))]
fn is_right_writer(before: &[&[u8]], text: &[u8]) -> bool
    ensures { result ≡ is_right_writer (map text_view before.now) text.now }
{
    read_net(text).is_some() && is_new_writer(before, text)
}

fn is_new_writer(before: &[&[u8]], text: &[u8]) -> bool
    ensures { result ≡ list_all (λ e. not (bytes_eq (text_view e) text.now)) before.now }
{
    before.iter().all(|e| *e != text)
}
