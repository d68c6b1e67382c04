//! Symbols that begin with stored bytes.

ghost use Rattle.std.specs.Prelude.{◌≡◌, map, OnOk};
ghost use Rattle.spec_plant.specs.AcceptedTypes.{AreTypes, IsSized};
ghost use Rattle.spec_persistent.specs.Stored.{symbol_with_stored};
ghost use Rattle.type_layout.specs.Descriptions.{symbol_of};
ghost use Rattle.type_layout.specs.NamedTypes.{types_of};
ghost use Rattle.type_layout.specs.Shapes.{shape_of};
ghost use Rattle.persist_store.specs.Entries.{entry_meant};
ghost use Rattle.stored_values.specs.StoredBodies.{AreSized};

use crate::finding::first_of;
use ads_base::{NoMemory, Octets};
use persist_store::StoredEntry;
use std::alloc::Global;
use type_layout::{SymbolDesc, Types, put_form, size};

/// The persistent ones of a port's symbols begin with what is stored of them.
pub(crate) fn store_symbols(
    alloc: Global,
    entries: &[StoredEntry<'_>],
    types: &Types,
    port: u16,
    symbols: &mut [SymbolDesc],
) -> Result<(), NoMemory>
    requires types { AreTypes (types_of types.now) }
    requires sized { AreSized (types_of types.now) (map symbol_of symbols.old) }
    ensures { OnOk result (map symbol_of symbols.new
        ≡ map (symbol_with_stored (map entry_meant entries.now) (types_of types.now) port) (map symbol_of symbols.old)) }
{
    for symbol in symbols.iter_mut() {
        store_symbol(alloc, entries, types, port, symbol)?;
    }
    Ok(())
}

// A persistent symbol begins with the bytes of the first entry that is of it.
fn store_symbol(
    alloc: Global,
    entries: &[StoredEntry<'_>],
    types: &Types,
    port: u16,
    symbol: &mut SymbolDesc,
) -> Result<(), NoMemory>
    requires types { AreTypes (types_of types.now) }
    requires sized { IsSized (types_of types.now) (shape_of symbol.old.kind) }
    ensures { OnOk result (symbol_of symbol.new
        ≡ symbol_with_stored (map entry_meant entries.now) (types_of types.now) port (symbol_of symbol.old)) }
{
    if !symbol.persistent {
        return Ok(());
    }
    let mut form = Octets::new(alloc);
    put_form(alloc, types, symbol.kind.as_ref(), &mut form)?;
    let size = size(types, symbol.kind.as_ref());
    match first_of(entries, port, symbol.name.as_slice(), form.as_slice(), size) {
        None => Ok(()),
        Some(entry) => {
            symbol.initial = Octets::copy_of(alloc, entry.bytes)?;
            Ok(())
        }
    }
}
