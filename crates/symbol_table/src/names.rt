//! The whole names of symbols, found ASCII case aside.

ghost use Rattle.std.specs.Prelude.{◌<◌, ◌^◌, length, IfOk};
ghost use Rattle.symbol_table.specs.Names.{AreNamesOf};
ghost use Rattle.symbol_table.specs.Rows.{symbols_of_rows};

use crate::row::SymbolRow;
use ads_base::NoMemory;
use name_index::NameIndex;
use std::alloc::Global;

/// The numbers of these symbols by their names.
pub fn names_of(alloc: Global, rows: &[SymbolRow]) -> Result<NameIndex, NoMemory>
    requires { length rows.now < 2 ^ 32 }
    ensures { IfOk result (AreNamesOf (symbols_of_rows rows.now)) }
{
    let mut names = NameIndex::new(alloc);
    for row in rows {
        names.add(alloc, row.name.as_slice())?;
    }
    Ok(names)
}
