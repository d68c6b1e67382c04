//! The id of a type, which its symbols' entries tell.

ghost use Rattle.std.specs.Prelude.{◌≡◌, ◌<◌, length, IsTrue};
ghost use Rattle.spec_plant.specs.Entries.{type_id};
ghost use Rattle.spec_machine.specs.Entries.{type_id_in};
ghost use Rattle.spec_plant.specs.Trees.{elem_tree, tree_at, tree_of, trees_of};
ghost use Rattle.spec_plant.specs.AcceptedTypes.{AreTypes, IsSized, is_elem};
ghost use Rattle.type_layout.specs.Shapes.{elem_of, shape_of_ref};
ghost use Rattle.type_layout.specs.NamedTypes.{types_of};
ghost use Rattle.port_device.specs.Manners.{manner_of};

use crate::Manner;
use type_layout::{Elem, NamedType, TypeRef, Types};

/// The id of a type to a server of this manner. A structure has 65, an enumeration has the id of its base; an array has 65 to
/// the strict server, and to the wide one the id of its elements.
#[tactic(auto, using(crate::proofs::TypeIds::one_id))]
pub(crate) fn type_id(manner: Manner, types: &Types, t: TypeRef<'_>) -> u32
    requires types { AreTypes (types_of types.now) }
    requires sized { IsSized (types_of types.now) (shape_of_ref t) }
    ensures { result ≡ type_id_in (manner_of manner) (tree_of (types_of types.now) (shape_of_ref t.entry)) }
{
    match t {
        TypeRef::One(elem) => elem_id(types, elem),
        TypeRef::Array(_, elem) => match manner {
            Manner::Strict => 65,
            Manner::Wide => elem_id(types, elem),
        },
    }
}

/// The id of an element.
pub(crate) fn elem_id(types: &Types, elem: Elem) -> u32
    requires types { AreTypes (types_of types.now) }
    requires named { IsTrue (is_elem (types_of types.now) (elem_of elem)) }
    ensures { result ≡ type_id (elem_tree (trees_of (types_of types.now)) (elem_of elem)) }
{
    match elem {
        Elem::Plain(kind) => kind.type_id(),
        Elem::Text(_) => 30,
        Elem::Struct(place) => named_id(types.as_slice(), place),
        Elem::Enum(place) => named_id(types.as_slice(), place),
    }
}

fn named_id(types: &[NamedType], place: u16) -> u32
    requires types { AreTypes (types_of types.now) }
    requires there { place < length (types_of types.now) }
    ensures { result ≡ type_id (tree_at (trees_of (types_of types.now)) place) }
{
    match &types[place as usize] {
        NamedType::Struct(_) => 65,
        NamedType::Enum(e) => e.base.type_id(),
    }
}
