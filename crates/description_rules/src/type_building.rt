//! Structures and enumerations, built where their arrays have not too many elements.
ghost use Rattle.std.specs.Prelude.{◌≡◌, map, IfOk};
ghost use Rattle.spec_rules.specs.Described.{member_described, type_described};
ghost use Rattle.type_layout.specs.NamedTypes.{types_of};
ghost use Rattle.description_rules.specs.Built.{IsMemberOrLarge, AreMembersOrLarge, IsTypeOrLarge};
ghost use Rattle.description_rules.specs.KnownTypes.{IsKnown};
ghost use Rattle.description_table.specs.Views.{member_view, structure_view, type_view};

use crate::building::enumeration_of;
use crate::known_types::KnownTypes;
use crate::shape_building::small_shape;
use ads_base::{ListOf, NoMemory, Octets};
use description_table::{WrittenMember, WrittenStructure, WrittenType};
use std::alloc::Global;
use type_layout::{Member, Members, NamedType, StructType};

/// The type that a document writes behind these; None where an array in it has too many elements.
pub fn build_type(
    alloc: Global,
    known: &KnownTypes,
    kind: &WrittenType<'_>,
) -> Result<Option<NamedType>, NoMemory>
    requires { IsKnown known.now }
    ensures { IfOk result (IsTypeOrLarge (type_described (types_of known.now.types) (type_view kind.now))) }
{
    match kind {
        WrittenType::Structure(s) => build_structure(alloc, known, s),
        WrittenType::Enumeration(e) => Ok(Some(NamedType::Enum(enumeration_of(alloc, e)?))),
    }
}

fn build_structure(
    alloc: Global,
    known: &KnownTypes,
    s: &WrittenStructure<'_>,
) -> Result<Option<NamedType>, NoMemory>
    requires { IsKnown known.now }
    ensures { IfOk result (IsTypeOrLarge (type_described (types_of known.now.types) (structure_view s.now))) }
{
    let Some(members) = build_members(alloc, known, s.members.as_slice())? else {
        return Ok(None);
    };
    let name = Octets::copy_of(alloc, s.name)?;
    Ok(Some(NamedType::Struct(StructType { name, members })))
}

fn build_members(
    alloc: Global,
    known: &KnownTypes,
    members: &[WrittenMember<'_>],
) -> Result<Option<Members>, NoMemory>
    requires { IsKnown known.now }
    ensures { IfOk result (AreMembersOrLarge (map (member_described (types_of known.now.types)) (map member_view members.now))) }
{
    let mut built = ListOf::new(alloc);
    for member in members {
        let Some(member) = build_member(alloc, known, member)? else {
            return Ok(None);
        };
        built.push(alloc, member)?;
    }
    Ok(Some(built))
}

fn build_member(
    alloc: Global,
    known: &KnownTypes,
    member: &WrittenMember<'_>,
) -> Result<Option<Member>, NoMemory>
    requires { IsKnown known.now }
    ensures { IfOk result (IsMemberOrLarge (member_described (types_of known.now.types) (member_view member.now))) }
{
    let Some(kind) = small_shape(alloc, known, member.kind)? else {
        return Ok(None);
    };
    let name = Octets::copy_of(alloc, member.name)?;
    let comment = Octets::copy_of(alloc, member.comment)?;
    Ok(Some(Member {
        name,
        kind,
        comment,
    }))
}
