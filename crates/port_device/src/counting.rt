//! The bytes of the uploads are counted, once for the ports of a description.

ghost use Rattle.std.specs.Prelude.{◌≡◌, ◌≤◌, length, All, IfOk};
ghost use Rattle.spec_plant.specs.AcceptedTypes.{AreTypes};
ghost use Rattle.spec_plant.specs.Entries.{symbol_entry_length, upload_size};
ghost use Rattle.symbol_table.specs.Rows.{symbol_of_row, declared_by_rows, IsSizedRow};
ghost use Rattle.symbol_table.specs.Tables.{declared, IsTableWith};
ghost use Rattle.type_layout.specs.NamedTypes.{types_of};
ghost use Rattle.port_device.specs.Uploads.{described, types_upload};

use ads_base::{NoMemory, Octets};
use std::alloc::Global;
use symbol_table::{SymbolRow, Table};
use type_layout::{Types, type_text};
use type_upload::put_types;

/// The bytes of the upload of the symbols of a table. `types` is the list of types that it was built with.
pub(crate) fn symbols_size(alloc: Global, types: &Types, table: &Table) -> Result<u32, NoMemory>
    requires table { IsTableWith (types_of types.now) table.now }
    requires few { upload_size (types_of types.now) (described table.now) ≤ 2000000 }
    ensures { IfOk result (λ size. size ≡ upload_size (types_of types.now) (described table.now)) }
{
    rows_size(alloc, types, table.symbols())
}

fn rows_size(alloc: Global, types: &Types, rows: &[SymbolRow]) -> Result<u32, NoMemory>
    requires sized { All (IsSizedRow (types_of types.now)) rows.now }
    requires few { upload_size (types_of types.now) (declared_by_rows rows.now) ≤ 2000000 }
    ensures { IfOk result (λ size. size ≡ upload_size (types_of types.now) (declared_by_rows rows.now)) }
{
    let mut text = Octets::new(alloc);
    let mut size = 0;
    for row in rows {
        size += entry_len(alloc, types, row, &mut text)?;
    }
    Ok(size)
}

// The bytes of a symbol's entry; `text` is room for the text of its type.
#[tactic(auto, using(type_upload::proofs::LayoutLemmas::names_are_there))]
fn entry_len(
    alloc: Global,
    types: &Types,
    row: &SymbolRow,
    text: &mut Octets,
) -> Result<u32, NoMemory>
    requires sized { IsSizedRow (types_of types.now) row.now }
    requires few { symbol_entry_length (types_of types.now) (declared (symbol_of_row row.now)) ≤ 2000000 }
    ensures { IfOk result (λ len. len ≡ symbol_entry_length (types_of types.now) (declared (symbol_of_row row.now))) }
{
    text.cut(0);
    type_text(alloc, types, row.kind.as_ref(), text)?;
    let texts = row.name.len() + text.len() + row.comment.len();
    Ok(33 + texts as u32)
}

/// The bytes of the upload of the types, of which accepted ones have at most 1,001,000 each.
pub(crate) fn types_size(alloc: Global, types: &Types) -> Result<u32, NoMemory>
    requires { AreTypes (types_of types.now) }
    ensures { IfOk result (λ size. size ≡ length (types_upload (types_of types.now))) }
{
    let mut upload = Octets::new(alloc);
    put_types(alloc, types, &mut upload)?;
    Ok(upload.len() as u32)
}
