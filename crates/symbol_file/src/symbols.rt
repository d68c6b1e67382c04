//! The symbols of a port.
ghost use Rattle.std.specs.Prelude.{◌≡◌, ◌<◌, ◌^◌, map, true, unwrap_or, IfOk, IfSome};
ghost use Rattle.std.specs.List.{All};
ghost use Rattle.spec_plant.specs.Description as plant;
ghost use Rattle.spec_plant.specs.AcceptedTypes.{is_small_shape};
ghost use Rattle.spec_rules.specs.Described as described;
ghost use Rattle.type_layout.specs.Shapes.{shape_of};
ghost use Rattle.type_layout.specs.NamedTypes.{types_of};
ghost use Rattle.type_layout.specs.Descriptions.{symbol_of, symbols_of, area_of};
ghost use Rattle.description_rules.specs.KnownTypes.{IsKnown};
ghost use Rattle.description_table.specs.Views.{symbol_view};
ghost use Rattle.spec_rules.specs.Described.{natural_of};
ghost use Rattle.symbol_file.specs.Fitting.{SymbolFits, IsNetText};
ghost use Rattle.symbol_file.specs.SymbolRead.{symbol_read};

use crate::initial::initial_bytes;
use crate::nets::maybe_nets;
use crate::numbers::{maybe_number32, number32};
use ads_base::{ListOf, NoMemory, Octets};
use description_rules::{KnownTypes, read_area, small_shape, text_size};
use description_table::WrittenSymbol;
use std::alloc::Global;
use type_layout::{Area, Shape, SymbolDesc, Symbols};

/// The symbols that a document writes under one port.
pub fn symbols_of(
    alloc: Global,
    known: &KnownTypes,
    symbols: &[WrittenSymbol<'_>],
) -> Result<Symbols, NoMemory>
    requires known { IsKnown known.now }
    requires fit { All (SymbolFits (types_of known.now.types)) symbols.now }
    ensures { IfOk result (λ built. symbols_of built
        ≡ map (described.symbol_described (types_of known.now.types)) (map symbol_view symbols.now)) }
{
    let mut built = ListOf::new(alloc);
    for symbol in symbols {
        let one = symbol_of(alloc, known, symbol)?;
        built.push(alloc, one)?;
    }
    Ok(built)
}

fn symbol_of(
    alloc: Global,
    known: &KnownTypes,
    symbol: &WrittenSymbol<'_>,
) -> Result<SymbolDesc, NoMemory>
    requires known { IsKnown known.now }
    requires fits { SymbolFits (types_of known.now.types) symbol.now }
    ensures { IfOk result (λ s. symbol_of s ≡ described.symbol_described (types_of known.now.types) (symbol_view symbol.now)) }
{
    match shape_of(alloc, known, symbol.kind) {
        Err(e) => Err(e),
        Ok(kind) => with_shape(alloc, known, symbol, kind),
    }
}

// The symbol of this shape.
fn with_shape(
    alloc: Global,
    known: &KnownTypes,
    symbol: &WrittenSymbol<'_>,
    kind: Shape,
) -> Result<SymbolDesc, NoMemory>
    requires known { IsKnown known.now }
    requires fits { SymbolFits (types_of known.now.types) symbol.now }
    requires kind { shape_of kind ≡ described.shape_described (types_of known.now.types) symbol.now.kind.now }
    ensures { IfOk result (λ s. symbol_of s ≡ described.symbol_described (types_of known.now.types) (symbol_view symbol.now)) }
{
    let size = text_size(known, symbol.kind) as u32;
    match initial_bytes(alloc, known.types.as_slice(), &kind, size, symbol.initial) {
        Err(e) => Err(e),
        Ok(initial) => with_texts(alloc, symbol, kind, initial),
    }
}

// The symbol of this shape with these bytes at first.
fn with_texts(
    alloc: Global,
    symbol: &WrittenSymbol<'_>,
    kind: Shape,
    initial: Octets,
) -> Result<SymbolDesc, NoMemory>
    requires offset { natural_of symbol.now.offset < 2 ^ 32 }
    requires signal { IfSome symbol.now.signal (λ n. natural_of n < 2 ^ 32) }
    requires writers { IfSome symbol.now.writers (λ v. All (λ t. IsNetText t.now) v.items) }
    ensures { IfOk result (λ s. symbol_of s ≡ symbol_read (shape_of kind) initial (symbol_view symbol.now)) }
{
    let name = Octets::copy_of(alloc, symbol.name)?;
    let comment = Octets::copy_of(alloc, symbol.comment)?;
    match maybe_nets(alloc, &symbol.writers) {
        Err(e) => Err(e),
        Ok(writers) => Ok(SymbolDesc {
            name,
            kind,
            area: area_of(symbol.area),
            at: number32(symbol.offset),
            comment,
            persistent: symbol.persistent,
            read_only: symbol.read_only,
            initial,
            signal: maybe_number32(symbol.signal),
            writers,
        }),
    }
}

fn shape_of(alloc: Global, known: &KnownTypes, text: &[u8]) -> Result<Shape, NoMemory>
    requires known { IsKnown known.now }
    requires small { is_small_shape (described.shape_described (types_of known.now.types) text.now) ≡ true }
    ensures { IfOk result (λ s. shape_of s ≡ described.shape_described (types_of known.now.types) text.now) }
{
    match small_shape(alloc, known, text)? {
        Some(shape) => Ok(shape),
        None => unreachable!(),
    }
}

fn area_of(text: &[u8]) -> Area
    ensures { area_of result ≡ unwrap_or (described.area_of text.now) plant.Inputs }
{
    match read_area(text) {
        Some(area) => area,
        None => Area::Inputs,
    }
}
