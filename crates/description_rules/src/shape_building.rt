//! Types of members and symbols, built where they have not too many elements.
ghost use Rattle.std.specs.Prelude.{◌≡◌, nat_le, true, false, MatchOption, IfOk};
ghost use Rattle.spec_plant.specs.AcceptedTypes.{is_small_shape};
ghost use Rattle.spec_rules.specs.Described.{shape_described};
ghost use Rattle.type_layout.specs.Shapes.{shape_of};
ghost use Rattle.type_layout.specs.NamedTypes.{types_of};
ghost use Rattle.description_rules.specs.Built.{IsShapeOrLarge};
ghost use Rattle.description_rules.specs.KnownTypes.{IsKnown};

use crate::dimensions::{MAX_ELEMENTS, build_shape, element_count};
use crate::known_types::KnownTypes;
use crate::named_shapes::described_shape;
use ads_base::NoMemory;
use std::alloc::Global;
use type_layout::Shape;

/// The type that a text names among those that are known; None where it is an array of too many elements.
pub fn small_shape(
    alloc: Global,
    known: &KnownTypes,
    text: &[u8],
) -> Result<Option<Shape>, NoMemory>
    requires { IsKnown known.now }
    ensures { IfOk result (IsShapeOrLarge (shape_described (types_of known.now.types) text.now)) }
{
    let shape = described_shape(known, text);
    if element_count(&shape) > MAX_ELEMENTS {
        return Ok(None);
    }
    match build_shape(alloc, &shape) {
        Err(e) => Err(e),
        Ok(built) => Ok(Some(built)),
    }
}
