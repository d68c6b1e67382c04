//! What symbols begin with after a reload: the bytes that they had, where their name and type are as before.

ghost use Rattle.std.specs.Prelude.{◌≡◌, ◌≤◌, List, length, map, All, IsTrue, IfOk, OnOk};
ghost use Rattle.spec_plant.specs.Accepted.{image_size, IMAGE_LIMIT};
ghost use Rattle.spec_plant.specs.Listed.{NamedType};
ghost use Rattle.type_layout.specs.Descriptions.{sizes_of};
ghost use Rattle.symbol_table.specs.Rows.{symbol_of_row};
ghost use Rattle.port_device.specs.PlacedBytes.{with_all_bytes};
ghost use Rattle.port_device.specs.Reloaded.{are_of_one_type, reloaded_bytes, reloaded_row, AreCompared, IsTypedRow, IsPlacedRow};

use crate::Port;
use crate::areas::{bytes_of, put_bytes};
use ads_base::NoMemory;
use process_image::Image;
use std::alloc::Global;
use symbol_table::SymbolRow;
use type_layout::{SameTypes, Sizes};

// Puts into an image what each symbol begins with after a reload of a port.
pub(crate) fn put_reloaded(
    alloc: Global,
    was: &Port,
    same: &SameTypes,
    rows: &[SymbolRow],
    sizes: &Sizes,
    image: &mut Image,
) -> Result<(), NoMemory>
    requires few { image_size (sizes_of sizes.now) ≤ IMAGE_LIMIT }
    requires image { length image.old ≡ image_size (sizes_of sizes.now) }
    requires each { All (IsPlacedRow (sizes_of sizes.now)) rows.now }
    ensures long { length image.new ≡ image_size (sizes_of sizes.now) }
    ensures ok { OnOk result ((types : List NamedType) → AreCompared was.now.types types same.now → All (IsTypedRow types) rows.now
        → image.new ≡ with_all_bytes (sizes_of sizes.now) image.old (map (reloaded_row types was.now) rows.now)) }
{
    for row in rows {
        let bytes = was.bytes_after(alloc, same, row)?;
        put_bytes(image, sizes, row.area, row.at, bytes);
    }
    Ok(())
}

// Whether a symbol before a reload and one after it have the same type.
pub(crate) fn have_same_type(same: &SameTypes, old: &SymbolRow, new: &SymbolRow) -> bool
    ensures len { IsTrue result → old.now.len ≡ new.now.len }
    ensures same { (before types : List NamedType) → AreCompared before types same.now → IsTypedRow before old.now
        → IsTypedRow types new.now
        → result ≡ are_of_one_type before types (symbol_of_row old.now) (symbol_of_row new.now) }
{
    // Types of two sizes are never the same.
    old.len == new.len && same.is_same(old.kind.as_ref(), new.kind.as_ref())
}

impl Port {
    // What a symbol of a new description begins with: the bytes that it has here, where it is kept, else its first ones.
    fn bytes_after<'a>(
        &'a self,
        alloc: Global,
        same: &SameTypes,
        row: &'a SymbolRow,
    ) -> Result<&'a [u8], NoMemory>
        requires { length row.now.initial ≡ row.now.len }
        ensures len { IfOk result (λ bytes. length bytes.now ≡ row.now.len) }
        ensures bytes { IfOk result (λ bytes. (types : List NamedType) → AreCompared self.now.types types same.now
            → IsTypedRow types row.now → bytes.now ≡ reloaded_bytes types self.now (symbol_of_row row.now)) }
    {
        match self.table.named(alloc, row.name.as_slice())? {
            None => Ok(row.initial.as_slice()),
            Some(number) => {
                let old = &self.table.symbols()[number as usize];
                if have_same_type(same, old, row) {
                    Ok(bytes_of(&self.image, &self.sizes, old.area, old.at, old.len))
                } else {
                    Ok(row.initial.as_slice())
                }
            }
        }
    }
}
