//! Symbol entries: what the symbol upload lists, and what the extended info by name gives.

ghost use Rattle.std.specs.Prelude.{◌≡◌, ◌+◌, ◌++◌, if◌then◌else◌, All, IsTrue, OnOk, OnErr};
ghost use Rattle.std.specs.List.{list_all};
ghost use Rattle.spec_plant.specs.AcceptedTypes.{AreTypes};
ghost use Rattle.spec_plant.specs.Spelling.{type_text};
ghost use Rattle.spec_plant.specs.Trees.{tree_of};
ghost use Rattle.spec_plant.specs.World.{plant_symbol};
ghost use Rattle.spec_machine.specs.Entries.{entry_of_symbol, PERSISTENT, READ_ONLY};
ghost use Rattle.symbol_info.specs.Entry.{entry_meant};
ghost use Rattle.symbol_table.specs.Rows.{symbol_of_row};
ghost use Rattle.symbol_table.specs.Tables.{declared, IsTableWith};
ghost use Rattle.type_layout.specs.NamedTypes.{types_of};
ghost use Rattle.type_layout.specs.Shapes.{shape_of};
ghost use Rattle.type_layout.specs.Spelled.{Extends};
ghost use Rattle.port_device.specs.Manners.{manner_of};
ghost use Rattle.port_device.specs.Uploads.{symbols_upload, has_short_texts};
ghost use Rattle.port_device.specs.Rows.{rows_bytes, row_bytes, IsEntryRow};

use crate::Manner;
use crate::type_ids::type_id;
use ads_base::{NoMemory, Octets};
use index_groups::byte_group;
use std::alloc::Global;
use symbol_info::{Entry, put_entry};
use symbol_table::{SymbolRow, Table};
use type_layout::{Types, type_text};

/// Appends the entries of all symbols of a table, in the order of the description. `types` is the list of types that it was
/// built with.
pub(crate) fn put_symbols(
    alloc: Global,
    manner: Manner,
    types: &Types,
    table: &Table,
    out: &mut Octets,
) -> Result<(), NoMemory>
    requires table { IsTableWith (types_of types.now) table.now }
    requires texts { IsTrue (list_all has_short_texts table.now.symbols) }
    ensures ok { OnOk result (out.new ≡ out.old ++ symbols_upload (manner_of manner) (types_of types.now) table.now) }
    ensures no_memory { OnErr result (out.new ≡ out.old) }
{
    let before = out.len();
    let put = append_rows(alloc, manner, types, table.symbols(), out);
    out.cut_back(before, put)
}

// After want of memory a part of the entries may stand there.
fn append_rows(
    alloc: Global,
    manner: Manner,
    types: &Types,
    rows: &[SymbolRow],
    out: &mut Octets,
) -> Result<(), NoMemory>
    requires types { AreTypes (types_of types.now) }
    requires rows { All (IsEntryRow (types_of types.now)) rows.now }
    ensures ok { OnOk result (out.new ≡ out.old ++ rows_bytes (manner_of manner) (types_of types.now) rows.now) }
    ensures no_memory { OnErr result (Extends out.old out.new) }
{
    let mut text = Octets::new(alloc);
    for row in rows {
        append_row(alloc, manner, types, row, &mut text, out)?;
    }
    Ok(())
}

// The entry of a symbol; `text` is room for the text of its type.
#[tactic(auto, using(type_upload::proofs::LayoutLemmas::names_are_there))]
fn append_row(
    alloc: Global,
    manner: Manner,
    types: &Types,
    row: &SymbolRow,
    text: &mut Octets,
    out: &mut Octets,
) -> Result<(), NoMemory>
    requires types { AreTypes (types_of types.now) }
    requires row { IsEntryRow (types_of types.now) row.now }
    ensures ok { OnOk result (out.new ≡ out.old ++ row_bytes (manner_of manner) (types_of types.now) row.now) }
    ensures no_memory { OnErr result (out.new ≡ out.old) }
{
    text.cut(0);
    type_text(alloc, types, row.kind.as_ref(), text)?;
    let entry = entry_of_row(manner, types, row, text.as_slice());
    put_entry(alloc, &entry, out)
}

fn entry_of_row<'a>(manner: Manner, types: &Types, row: &'a SymbolRow, text: &'a [u8]) -> Entry<'a>
    requires types { AreTypes (types_of types.now) }
    requires row { IsEntryRow (types_of types.now) row.now }
    requires text { text.now ≡ type_text (tree_of (types_of types.now) (shape_of row.now.kind)) }
    ensures { entry_meant result ≡ entry_of_symbol (manner_of manner) (plant_symbol (types_of types.now) (declared (symbol_of_row row.now))) }
{
    Entry {
        group: byte_group(row.area),
        offset: row.at,
        size: row.len,
        type_id: type_id(manner, types, row.kind.as_ref()),
        flags: flags_of(row.persistent, row.read_only),
        name: row.name.as_slice(),
        kind: text,
        comment: row.comment.as_slice(),
    }
}

/// The flags of an entry.
pub(crate) fn flags_of(persistent: bool, read_only: bool) -> u32
    ensures { result ≡ (if persistent then PERSISTENT else 0) + (if read_only then READ_ONLY else 0) }
{
    let kept = if persistent { 0x0001 } else { 0 };
    let fixed = if read_only { 0x0020 } else { 0 };
    kept + fixed
}
