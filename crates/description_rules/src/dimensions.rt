//! The dimensions of arrays, looked at before they are built.
ghost use Rattle.std.specs.Prelude.{◌≡◌, ◌≤◌, ◌^◌, [], map, nat_le, true, IfOk, OnOk};
ghost use Rattle.spec_plant.specs.Sizes.{element_count};
ghost use Rattle.spec_plant.specs.AcceptedTypes.{LIMIT};
ghost use Rattle.spec_plant.specs.Shapes.{bound_between};
ghost use Rattle.type_layout.specs.Shapes.{bound_of, bounds_of, shape_of};
ghost use Rattle.type_layout.specs.ReadTexts.{ends_of};
ghost use Rattle.description_rules.specs.NamedShapes.{ends_read, shape_read};

use crate::named_shapes::NamedShape;
use ads_base::NoMemory;
use std::alloc::Global;
use type_layout::{Bound, Bounds, Ends, Shape};

/// The greatest number of elements of an array.
pub const MAX_ELEMENTS: u128 = 1_048_576;

/// The number of elements of an array, 1 where the shape is no array.
pub fn element_count(s: &NamedShape) -> u128
    ensures count { result ≡ element_count (map bound_between (ends_read s.now)) }
    ensures bound { result ≤ 2 ^ 96 }
{
    let first = index_count(s.first) as u128;
    let second = index_count(s.second) as u128;
    let third = index_count(s.third) as u128;
    match s.count {
        0 => 1,
        1 => first,
        2 => first * second,
        _ => first * (second * third),
    }
}

/// The number of indexes of one dimension.
pub fn index_count(e: Ends) -> u64
    ensures count { result ≡ (bound_between (ends_of e)).count }
    ensures small { result ≤ 4294967296 }
{
    (e.high as i64 - e.low as i64).unsigned_abs() + 1
}

/// The shape that was read.
pub fn build_shape(alloc: Global, s: &NamedShape) -> Result<Shape, NoMemory>
    requires { nat_le (element_count (map bound_between (ends_read s.now))) LIMIT ≡ true }
    ensures { IfOk result (λ built. shape_of built ≡ shape_read s.now) }
{
    if s.count == 0 {
        return Ok(Shape::One(s.elem));
    }
    let mut bounds = Bounds::new(alloc);
    put_bounds(alloc, &mut bounds, s)?;
    Ok(Shape::Array(bounds, s.elem))
}

fn put_bounds(alloc: Global, bounds: &mut Bounds, s: &NamedShape) -> Result<(), NoMemory>
    requires none { bounds.old ≡ [] }
    requires small { nat_le (element_count (map bound_between (ends_read s.now))) LIMIT ≡ true }
    ensures { OnOk result (bounds_of bounds.new ≡ map bound_between (ends_read s.now)) }
{
    match s.count {
        0 => Ok(()),
        1 => bounds.push(alloc, bound_of(s.first)),
        2 => {
            bounds.push(alloc, bound_of(s.first))?;
            bounds.push(alloc, bound_of(s.second))
        }
        _ => {
            bounds.push(alloc, bound_of(s.first))?;
            bounds.push(alloc, bound_of(s.second))?;
            bounds.push(alloc, bound_of(s.third))
        }
    }
}

fn bound_of(e: Ends) -> Bound
    requires { (bound_between (ends_of e)).count ≤ 1048576 }
    ensures { bound_of result ≡ bound_between (ends_of e) }
{
    Bound {
        low: e.low,
        count: index_count(e) as u32,
    }
}
