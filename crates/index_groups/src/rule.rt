//! What an access names, or the code that refuses it.

ghost use Rattle.std.specs.Prelude.{◌≡◌, Some, IfOk};
ghost use Rattle.spec_plant.specs.Description.{size_in};
ghost use Rattle.spec_formats.specs.Ranges.{range_of, range_in, byte_range, bit_range, size_range};
ghost use Rattle.type_layout.specs.Descriptions.{area_of, sizes_of};
ghost use Rattle.index_groups.specs.Access.{answer_meant, IsWithin};
ghost use Rattle.index_groups.specs.Groups.{group_meant};

use crate::{Group, Reach};
use return_codes::Code;
use type_layout::{Area, Sizes};

// The most bytes that one access may ask.
const MAX_LEN: u32 = 2_000_000;

/// What an access to a byte, bit or size group names, where the areas have these sizes, or the code that refuses it.
///
/// | groups | offset | refused by, in this order |
/// |---|---|---|
/// | 0x4020 memory, 0x4040 data, 0xF020 inputs, 0xF030 outputs | the first byte | 0x703 above the size, 0x705 for an end above it or a length above 2,000,000 |
/// | 0x4021, 0xF021, 0xF031: one bit | byte number times 8 plus bit number | 0x703 for a byte number not below the size, 0x705 for a length other than 1 |
/// | 0x4025, 0x4045, 0xF025, 0xF035: the size | not looked at | 0x705 for a length below 4 |
/// | any other | | 0x702 |
///
/// Beckhoff Information System, "Index Group/Offset Specification".
#[inline(always)]
#[tactic(auto, unfolding(spec_formats::specs::Ranges::range_of, spec_formats::specs::Ranges::range_in))]
pub fn reach(sizes: &Sizes, group: u32, offset: u32, len: u32) -> Result<Reach, Code>
    ensures rule { answer_meant result ≡ range_of (sizes_of sizes.now) group offset len }
    ensures within { IfOk result (IsWithin (sizes_of sizes.now)) }
{
    match Group::of(group) {
        Some(group) => group.reach(sizes, offset, len),
        None => Err(Code::C702),
    }
}

impl Group {
    /// The same of a group that is known.
    #[inline(always)]
    #[tactic(auto, unfolding(spec_formats::specs::Ranges::range_in))]
    pub fn reach(self, sizes: &Sizes, offset: u32, len: u32) -> Result<Reach, Code>
        ensures rule { answer_meant result ≡ range_in (Some (group_meant self)) (sizes_of sizes.now) offset len }
        ensures within { IfOk result (IsWithin (sizes_of sizes.now)) }
    {
        match self {
            Group::Bytes(area) => byte_reach(sizes, area, offset, len),
            Group::Bit(area) => bit_reach(sizes, area, offset, len),
            Group::Size(area) => size_reach(area, len),
            Group::Handle(_) | Group::Name(_) => Err(Code::C702),
            Group::Version | Group::Upload(_) | Group::Sum(_) => Err(Code::C702),
        }
    }
}

#[inline(always)]
#[tactic(auto, unfolding(spec_formats::specs::Ranges::byte_range))]
fn byte_reach(sizes: &Sizes, area: Area, offset: u32, len: u32) -> Result<Reach, Code>
    ensures rule { answer_meant result
        ≡ byte_range (area_of area) (size_in (sizes_of sizes.now) (area_of area)) offset len }
    ensures within { IfOk result (IsWithin (sizes_of sizes.now)) }
{
    let size = sizes.in_area(area);
    if offset > size {
        return Err(Code::C703);
    }
    if offset as u64 + len as u64 > size as u64 || len > MAX_LEN {
        return Err(Code::C705);
    }
    Ok(Reach::Bytes {
        area,
        at: offset,
        len,
    })
}

#[inline(always)]
#[tactic(auto, unfolding(spec_formats::specs::Ranges::bit_range))]
fn bit_reach(sizes: &Sizes, area: Area, offset: u32, len: u32) -> Result<Reach, Code>
    ensures rule { answer_meant result
        ≡ bit_range (area_of area) (size_in (sizes_of sizes.now) (area_of area)) offset len }
    ensures within { IfOk result (IsWithin (sizes_of sizes.now)) }
{
    let size = sizes.in_area(area);
    if offset / 8 >= size {
        return Err(Code::C703);
    }
    if len != 1 {
        return Err(Code::C705);
    }
    Ok(Reach::Bit {
        area,
        at: offset / 8,
        bit: (offset % 8) as u8,
    })
}

#[tactic(auto, unfolding(spec_formats::specs::Ranges::size_range))]
fn size_reach(area: Area, len: u32) -> Result<Reach, Code>
    ensures rule { answer_meant result ≡ size_range (area_of area) len }
    ensures size { IfOk result (λ reach. reach ≡ Reach.Size area) }
{
    if len < 4 {
        return Err(Code::C705);
    }
    Ok(Reach::Size { area })
}
