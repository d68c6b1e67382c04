//! The image that a port begins with.

ghost use Rattle.std.specs.Prelude.{◌≡◌, ◌≤◌, length, map, replicate, All, IfOk};
ghost use Rattle.spec_plant.specs.Accepted.{image_size, IMAGE_LIMIT};
ghost use Rattle.type_layout.specs.Descriptions.{area_of, sizes_of};
ghost use Rattle.symbol_table.specs.Rows.{symbols_of_rows};
ghost use Rattle.symbol_table.specs.Tables.{TableSymbol};
ghost use Rattle.spec_machine.specs.PortBytes.{with_image_bytes};
ghost use Rattle.port_device.specs.PlacedBytes.{with_all_bytes, placed_symbol};
ghost use Rattle.port_device.specs.FirstPorts.{FitsRow};

use crate::areas::{put_bytes, total};
use ads_base::NoMemory;
use process_image::Image;
use std::alloc::Global;
use symbol_table::SymbolRow;
use type_layout::Sizes;

/// Zeros, and at each symbol its initial bytes.
pub(crate) fn first_image(
    alloc: Global,
    sizes: &Sizes,
    rows: &[SymbolRow],
) -> Result<Image, NoMemory>
    requires few { image_size (sizes_of sizes.now) ≤ IMAGE_LIMIT }
    requires fit { All (FitsRow (sizes_of sizes.now)) rows.now }
    ensures { IfOk result (λ image. image ≡ with_all_bytes (sizes_of sizes.now) (replicate (image_size (sizes_of sizes.now)) 0)
        (map (placed_symbol (λ (s : TableSymbol). s.initial)) (symbols_of_rows rows.now))) }
{
    let mut image = Image::new(alloc, total(sizes))?;
    for row in rows {
        put_initial(&mut image, sizes, row);
    }
    Ok(image)
}

fn put_initial(image: &mut Image, sizes: &Sizes, row: &SymbolRow)
    requires few { image_size (sizes_of sizes.now) ≤ IMAGE_LIMIT }
    requires image { length image.old ≡ image_size (sizes_of sizes.now) }
    requires fits { FitsRow (sizes_of sizes.now) row.now }
    ensures bytes { image.new ≡ with_image_bytes (sizes_of sizes.now) image.old (area_of row.now.area) row.now.at row.now.initial }
    ensures image { length image.new ≡ image_size (sizes_of sizes.now) }
{
    put_bytes(image, sizes, row.area, row.at, row.initial.as_slice());
}
