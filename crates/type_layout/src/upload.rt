//! The size of a port's upload.

ghost use Rattle.std.specs.Prelude.{◌≡◌, ◌≤◌, All, IfOk};
ghost use Rattle.spec_plant.specs.Entries.{symbol_entry_length, upload_size};
ghost use Rattle.type_layout.specs.Shapes.{shape_of};
ghost use Rattle.type_layout.specs.NamedTypes.{types_of};
ghost use Rattle.type_layout.specs.Descriptions.{symbol_of, symbols_of};
ghost use Rattle.type_layout.specs.Spelled.{NamesThere};

use crate::{SymbolDesc, Types, type_text};
use ads_base::{NoMemory, Octets};
use std::alloc::Global;

/// The bytes of the upload of these symbols, which is their entries one after another. Beckhoff Information
/// System, upload of symbols, index group 0xF00C.
pub fn upload_size(alloc: Global, types: &Types, symbols: &[SymbolDesc]) -> Result<u32, NoMemory>
    requires names { All (λ s. NamesThere (types_of types.now) (shape_of s.kind)) symbols.now }
    requires fits { upload_size (types_of types.now) (symbols_of symbols.now) ≤ 4294967295 }
    ensures { IfOk result (λ size. size ≡ upload_size (types_of types.now) (symbols_of symbols.now)) }
{
    let mut text = Octets::new(alloc);
    let mut size = 0;
    for symbol in symbols {
        size += entry_length(alloc, types, symbol, &mut text)?;
    }
    Ok(size)
}

// The bytes of a symbol's entry; `text` is room for the text of its type.
fn entry_length(
    alloc: Global,
    types: &Types,
    symbol: &SymbolDesc,
    text: &mut Octets,
) -> Result<u32, NoMemory>
    requires names { NamesThere (types_of types.now) (shape_of symbol.now.kind) }
    requires fits { symbol_entry_length (types_of types.now) (symbol_of symbol.now) ≤ 4294967295 }
    ensures { IfOk result (λ len. len ≡ symbol_entry_length (types_of types.now) (symbol_of symbol.now)) }
{
    text.cut(0);
    type_text(alloc, types, symbol.kind.as_ref(), text)?;
    let texts = symbol.name.len() + text.len() + symbol.comment.len();
    Ok(33 + texts as u32)
}
