//! Where the areas of a port lie in its image: inputs, outputs, memory and data, side by side.

ghost use Rattle.std.specs.Prelude.{◌≡◌, ◌+◌, ◌<◌, ◌≤◌, length, min, Some};
ghost use Rattle.spec_plant.specs.Accepted.{image_size, IMAGE_LIMIT};
ghost use Rattle.spec_plant.specs.Description.{size_in};
ghost use Rattle.spec_plant.specs.World.{with_nth_byte};
ghost use Rattle.type_layout.specs.Descriptions.{area_of, sizes_of};
ghost use Rattle.spec_machine.specs.Access.{with_bit};
ghost use Rattle.spec_machine.specs.PortBytes.{start_in, image_byte, image_bytes, with_image_bytes};

use crate::bits::with_bit;
use process_image::{Image, Span};
use type_layout::{Area, Sizes};

/// The bytes of all areas.
pub(crate) fn total(sizes: &Sizes) -> u32
    requires { image_size (sizes_of sizes.now) ≤ IMAGE_LIMIT }
    ensures { result ≡ image_size (sizes_of sizes.now) }
{
    sizes.inputs + sizes.outputs + sizes.memory + sizes.process
}

/// Where an area begins.
pub(crate) fn start_of(sizes: &Sizes, area: Area) -> u32
    requires { image_size (sizes_of sizes.now) ≤ IMAGE_LIMIT }
    ensures { result ≡ start_in (sizes_of sizes.now) (area_of area) }
{
    match area {
        Area::Inputs => 0,
        Area::Outputs => sizes.inputs,
        Area::Memory => sizes.inputs + sizes.outputs,
        Area::Process => sizes.inputs + sizes.outputs + sizes.memory,
    }
}

/// The size of an area.
pub(crate) fn size_of(sizes: &Sizes, area: Area) -> u32
    ensures { result ≡ size_in (sizes_of sizes.now) (area_of area) }
{
    match area {
        Area::Inputs => sizes.inputs,
        Area::Outputs => sizes.outputs,
        Area::Memory => sizes.memory,
        Area::Process => sizes.process,
    }
}

/// The part of the image that some bytes of an area are.
pub(crate) fn span_of(sizes: &Sizes, area: Area, at: u32, len: u32) -> Span
    requires few { image_size (sizes_of sizes.now) ≤ IMAGE_LIMIT }
    requires within { at + len ≤ size_in (sizes_of sizes.now) (area_of area) }
    ensures at { result.at ≡ start_in (sizes_of sizes.now) (area_of area) + at }
    ensures len { result.len ≡ len }
    ensures within { result.at + result.len ≤ image_size (sizes_of sizes.now) }
{
    Span {
        at: start_of(sizes, area) + at,
        len,
    }
}

/// Some bytes of an area.
pub(crate) fn bytes_of<'a>(
    image: &'a Image,
    sizes: &Sizes,
    area: Area,
    at: u32,
    len: u32,
) -> &'a [u8]
    requires few { image_size (sizes_of sizes.now) ≤ IMAGE_LIMIT }
    requires image { length image.now ≡ image_size (sizes_of sizes.now) }
    requires within { at + len ≤ size_in (sizes_of sizes.now) (area_of area) }
    ensures { result.now ≡ image_bytes (sizes_of sizes.now) image.now (area_of area) at len }
{
    image.part(span_of(sizes, area, at, len))
}

/// A byte of an area.
pub(crate) fn byte_of(image: &Image, sizes: &Sizes, area: Area, at: u32) -> u8
    requires few { image_size (sizes_of sizes.now) ≤ IMAGE_LIMIT }
    requires image { length image.now ≡ image_size (sizes_of sizes.now) }
    requires within { at < size_in (sizes_of sizes.now) (area_of area) }
    ensures { image_byte (sizes_of sizes.now) image.now (area_of area) at ≡ Some result }
{
    let bytes = bytes_of(image, sizes, area, at, 1);
    bytes[0]
}

/// Puts bytes into an area, from a byte on.
pub(crate) fn put_bytes(image: &mut Image, sizes: &Sizes, area: Area, at: u32, bytes: &[u8])
    requires few { image_size (sizes_of sizes.now) ≤ IMAGE_LIMIT }
    requires image { length image.old ≡ image_size (sizes_of sizes.now) }
    requires within { at + length bytes.now ≤ size_in (sizes_of sizes.now) (area_of area) }
    ensures { image.new ≡ with_image_bytes (sizes_of sizes.now) image.old (area_of area) at bytes.now }
{
    // Where the length is known, as it is of most fields, the bytes are moved in one step and with no call.
    if bytes.len() == 4 {
        copy_bytes(image, sizes, area, at, bytes);
    } else {
        copy_bytes(image, sizes, area, at, bytes);
    }
}

// The same, whether the length is known or not.
#[inline(always)]
fn copy_bytes(image: &mut Image, sizes: &Sizes, area: Area, at: u32, bytes: &[u8])
    requires few { image_size (sizes_of sizes.now) ≤ IMAGE_LIMIT }
    requires image { length image.old ≡ image_size (sizes_of sizes.now) }
    requires within { at + length bytes.now ≤ size_in (sizes_of sizes.now) (area_of area) }
    ensures { image.new ≡ with_image_bytes (sizes_of sizes.now) image.old (area_of area) at bytes.now }
{
    let span = span_of(sizes, area, at, bytes.len() as u32);
    image.part_mut(span).copy_from_slice(bytes);
}

/// Clears a bit of a byte of an area by 0, and sets it by any other value.
pub(crate) fn put_bit(image: &mut Image, sizes: &Sizes, area: Area, at: u32, bit: u8, value: u8)
    requires few { image_size (sizes_of sizes.now) ≤ IMAGE_LIMIT }
    requires image { length image.old ≡ image_size (sizes_of sizes.now) }
    requires within { at < size_in (sizes_of sizes.now) (area_of area) }
    requires bit { bit < 8 }
    ensures { image.new ≡ with_nth_byte image.old (start_in (sizes_of sizes.now) (area_of area) + at)
        (with_bit bit (min value 1)) }
{
    let byte = with_bit(byte_of(image, sizes, area, at), bit, value);
    put_bytes(image, sizes, area, at, &[byte]);
}
