//! A symbol as the table keeps it.

ghost use Rattle.std.specs.Prelude.{◌≡◌, IsTrue, IfOk, map};
ghost use Rattle.std.specs.List.{list_all};
ghost use Rattle.spec_plant.specs.AcceptedTypes.{AreTypes};
ghost use Rattle.type_layout.specs.Extents.{extents_of};
ghost use Rattle.type_layout.specs.Shapes.{shape_of};
ghost use Rattle.type_layout.specs.NamedTypes.{types_of};
ghost use Rattle.type_layout.specs.Descriptions.{symbol_of, symbols_of, nets_of};
ghost use Rattle.symbol_table.specs.Tables.{table_symbol, is_typed};
ghost use Rattle.symbol_table.specs.Rows.{symbol_of_row, symbols_of_rows};

use ads_base::{NoMemory, Octets};
use std::alloc::Global;
use type_layout::{Area, Bounds, Extents, Nets, Shape, SymbolDesc, Types};

/// A symbol as the table keeps it: all that the description says of it, and the bytes that it has.
#[derive(Debug, Drop)]
pub struct SymbolRow {
    pub name: Octets,
    pub kind: Shape,
    pub area: Area,
    /// The first byte within the area.
    pub at: u32,
    /// The number of bytes.
    pub len: u32,
    pub comment: Octets,
    pub persistent: bool,
    pub read_only: bool,
    /// The bytes that it begins with.
    pub initial: Octets,
    /// The signal that writes it at each tick.
    pub signal: Option<u32>,
    /// The machines that may write it; none named are all.
    pub writers: Nets,
}

/// The rows of a port's symbols, in the same order.
pub fn rows_of(
    alloc: Global,
    symbols: &[SymbolDesc],
    types: &Types,
    extents: &Extents,
) -> Result<Vec<SymbolRow>, NoMemory>
    requires types { AreTypes (types_of types.now) }
    requires extents { extents.now ≡ extents_of (types_of types.now) }
    requires each { IsTrue (list_all (is_typed (types_of types.now)) (symbols_of symbols.now)) }
    ensures { IfOk result (λ rows. symbols_of_rows rows.items
        ≡ map (table_symbol (types_of types.now)) (symbols_of symbols.now)) }
{
    let mut rows = Vec::new(alloc);
    for symbol in symbols {
        let row = row_of(alloc, symbol, types, extents)?;
        rows.push(row)?;
    }
    Ok(rows)
}

fn row_of(
    alloc: Global,
    symbol: &SymbolDesc,
    types: &Types,
    extents: &Extents,
) -> Result<SymbolRow, NoMemory>
    requires types { AreTypes (types_of types.now) }
    requires extents { extents.now ≡ extents_of (types_of types.now) }
    requires typed { IsTrue (is_typed (types_of types.now) (symbol_of symbol.now)) }
    ensures { IfOk result (λ row. symbol_of_row row
        ≡ table_symbol (types_of types.now) (symbol_of symbol.now)) }
{
    let len = extents.size(types, symbol.kind.as_ref());
    let name = Octets::copy_of(alloc, symbol.name.as_slice())?;
    let kind = copy_of_shape(alloc, &symbol.kind)?;
    let comment = Octets::copy_of(alloc, symbol.comment.as_slice())?;
    let initial = Octets::copy_of(alloc, symbol.initial.as_slice())?;
    let writers = copy_of_nets(alloc, &symbol.writers)?;
    Ok(SymbolRow {
        name,
        kind,
        area: symbol.area,
        at: symbol.at,
        len,
        comment,
        persistent: symbol.persistent,
        read_only: symbol.read_only,
        initial,
        signal: symbol.signal,
        writers,
    })
}

fn copy_of_shape(alloc: Global, shape: &Shape) -> Result<Shape, NoMemory>
    ensures { IfOk result (λ copy. shape_of copy ≡ shape_of shape.now) }
{
    match shape {
        Shape::One(elem) => Ok(Shape::One(*elem)),
        Shape::Array(bounds, elem) => {
            let copy = bounds.as_slice().to_vec(alloc)?;
            Ok(Shape::Array(Bounds::from_vec(copy), *elem))
        }
    }
}

fn copy_of_nets(alloc: Global, nets: &Nets) -> Result<Nets, NoMemory>
    ensures { IfOk result (λ copy. nets_of copy ≡ nets_of nets.now) }
{
    let copy = nets.as_slice().to_vec(alloc)?;
    Ok(Nets::from_vec(copy))
}
