//! Size, alignment and depth of types, found once in the order of the list.
ghost use Rattle.std.specs.Prelude.{◌≡◌, ◌≤◌, ◌+◌, ◌-◌, ◌%◌, ◌*◌, ◌<◌, ◌^◌, length, map, max, slice_get, unwrap_or};
ghost use Rattle.spec_plant.specs.Sizes.{aligned, element_count};
ghost use Rattle.spec_plant.specs.Trees as trees;
ghost use Rattle.type_layout.specs.Shapes.{elem_of, shape_of, bounds_of};
ghost use Rattle.description_rules.specs.Extents.{extent_view, extent_of};

use type_layout::{Bound, Elem, Shape};

/// How a type lies in memory, and how deep structures are nested in it.
#[derive(Clone, Copy)]
pub struct Extent {
    pub size: u128,
    pub align: u128,
    pub depth: u128,
}

/// The least multiple of a unit from a place on.
pub fn aligned(at: u128, unit: u128) -> u128
    requires unit { 0 < unit }
    requires small { at + unit < 2 ^ 127 }
    ensures value { result ≡ aligned at unit }
    ensures bound { result ≤ at + unit }
{
    at + (unit - at % unit) % unit
}
