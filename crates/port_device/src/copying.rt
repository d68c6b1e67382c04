//! The types of a description are copied once for all its ports.

ghost use Rattle.std.specs.Prelude.{◌≡◌, map, IfOk};
ghost use Rattle.std.specs.Arc.{arc_value};
ghost use Rattle.type_layout.specs.Shapes.{shape_of};
ghost use Rattle.type_layout.specs.NamedTypes.{types_of, named_type_of, member_of, value_of, structure_of, enumeration_of};

use ads_base::{NoMemory, Octets};
use std::alloc::Global;
use std::sync::Arc;
use type_layout::{
    Bounds, EnumType, EnumValue, EnumValues, Member, Members, NamedType, Shape, StructType, Types,
};

/// The types of a description, to be shared by its ports.
pub(crate) fn shared_types(alloc: Global, types: &Types) -> Result<Arc<Types, Global>, NoMemory>
    ensures { IfOk result (λ shared. types_of (arc_value shared) ≡ types_of types.now) }
{
    let copy = copy_of_types(alloc, types)?;
    match Arc::new(alloc, copy) {
        Ok(shared) => Ok(shared),
        Err(_) => Err(NoMemory),
    }
}

fn copy_of_types(alloc: Global, types: &Types) -> Result<Types, NoMemory>
    ensures { IfOk result (λ copy. types_of copy ≡ types_of types.now) }
{
    let mut copies = Vec::new(alloc);
    for named in types.as_slice() {
        let copy = copy_of_type(alloc, named)?;
        copies.push(copy)?;
    }
    Ok(Types::from_vec(copies))
}

fn copy_of_type(alloc: Global, named: &NamedType) -> Result<NamedType, NoMemory>
    ensures { IfOk result (λ copy. named_type_of copy ≡ named_type_of named.now) }
{
    match named {
        NamedType::Struct(structure) => Ok(NamedType::Struct(copy_of_structure(alloc, structure)?)),
        NamedType::Enum(enumeration) => Ok(NamedType::Enum(copy_of_enumeration(
            alloc,
            enumeration,
        )?)),
    }
}

fn copy_of_structure(alloc: Global, structure: &StructType) -> Result<StructType, NoMemory>
    ensures { IfOk result (λ copy. structure_of copy ≡ structure_of structure.now) }
{
    let name = Octets::copy_of(alloc, structure.name.as_slice())?;
    let members = copy_of_members(alloc, structure.members.as_slice())?;
    Ok(StructType { name, members })
}

fn copy_of_members(alloc: Global, members: &[Member]) -> Result<Members, NoMemory>
    ensures { IfOk result (λ copy. map member_of copy ≡ map member_of members.now) }
{
    let mut copies = Vec::new(alloc);
    for member in members {
        let copy = copy_of_member(alloc, member)?;
        copies.push(copy)?;
    }
    Ok(Members::from_vec(copies))
}

fn copy_of_member(alloc: Global, member: &Member) -> Result<Member, NoMemory>
    ensures { IfOk result (λ copy. member_of copy ≡ member_of member.now) }
{
    let name = Octets::copy_of(alloc, member.name.as_slice())?;
    let kind = copy_of_shape(alloc, &member.kind)?;
    let comment = Octets::copy_of(alloc, member.comment.as_slice())?;
    Ok(Member {
        name,
        kind,
        comment,
    })
}

fn copy_of_shape(alloc: Global, shape: &Shape) -> Result<Shape, NoMemory>
    ensures { IfOk result (λ copy. shape_of copy ≡ shape_of shape.now) }
{
    match shape {
        Shape::One(elem) => Ok(Shape::One(*elem)),
        Shape::Array(bounds, elem) => {
            let copy = bounds.as_slice().to_vec(alloc)?;
            Ok(Shape::Array(Bounds::from_vec(copy), *elem))
        }
    }
}

fn copy_of_enumeration(alloc: Global, enumeration: &EnumType) -> Result<EnumType, NoMemory>
    ensures { IfOk result (λ copy. enumeration_of copy ≡ enumeration_of enumeration.now) }
{
    let name = Octets::copy_of(alloc, enumeration.name.as_slice())?;
    let values = copy_of_values(alloc, enumeration.values.as_slice())?;
    Ok(EnumType {
        name,
        base: enumeration.base,
        values,
    })
}

fn copy_of_values(alloc: Global, values: &[EnumValue]) -> Result<EnumValues, NoMemory>
    ensures { IfOk result (λ copy. map value_of copy ≡ map value_of values.now) }
{
    let mut copies = Vec::new(alloc);
    for value in values {
        let copy = copy_of_value(alloc, value)?;
        copies.push(copy)?;
    }
    Ok(EnumValues::from_vec(copies))
}

fn copy_of_value(alloc: Global, value: &EnumValue) -> Result<EnumValue, NoMemory>
    ensures { IfOk result (λ copy. value_of copy ≡ value_of value.now) }
{
    let name = Octets::copy_of(alloc, value.name.as_slice())?;
    Ok(EnumValue {
        name,
        number: value.number,
    })
}
