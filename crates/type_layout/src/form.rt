//! The form of a type, by which a stored value is known to fit.

ghost use Rattle.std.specs.Prelude.{◌≡◌, ◌++◌, ◌∷◌, [], OnOk, OnErr, IsTrue, codes, decimal, map};
ghost use Rattle.name_paths.specs.Identifier.{lower};
ghost use Rattle.spec_plant.specs.Spelling.{bound_text, joined_by_comma};
ghost use Rattle.spec_plant.specs.Trees.{tree_of, trees_of, elem_tree, tree_at};
ghost use Rattle.spec_plant.specs.AcceptedTypes.{AreTypes, IsSized, is_elem, elem_within, is_structure_at, is_enumeration_at};
ghost use Rattle.type_layout.specs.Forms.{form_of};
ghost use Rattle.type_layout.specs.Shapes.{elem_of, bounds_of, shape_of_ref};
ghost use Rattle.type_layout.specs.NamedTypes.{types_of};

use crate::spelling::append_bounds;
use crate::{Bound, Elem, NamedType, TypeRef, Types};
use ads_base::{NoMemory, Octets};
use std::alloc::Global;

/// Appends the form of a type: its canonical text in lower case, in which a structure is followed by its members in
/// braces, each with its form, and an enumeration by its base, as `axis{pos:lreal;mode:mode(int);}`.
pub fn put_form(
    alloc: Global,
    types: &Types,
    t: TypeRef<'_>,
    out: &mut Octets,
) -> Result<(), NoMemory>
    requires types { AreTypes (types_of types.now) }
    requires sized { IsSized (types_of types.now) (shape_of_ref t) }
    ensures ok { OnOk result (out.new
        ≡ out.old ++ form_of (tree_of (types_of types.now) (shape_of_ref t.entry))) }
    ensures no_memory { OnErr result (out.new ≡ out.old) }
{
    let mut text = Octets::new(alloc);
    append_form(alloc, types.as_slice(), t, &mut text)?;
    out.put(alloc, text.as_slice())
}

#[cycle(form)]
#[tactic(auto, unfolding(crate::specs::Forms::form_of))]
fn append_form(
    alloc: Global,
    types: &[NamedType],
    t: TypeRef<'_>,
    out: &mut Octets,
) -> Result<(), NoMemory>
    requires types { AreTypes (types_of types.now) }
    requires named { IsTrue (is_elem (types_of types.now) (elem_within (shape_of_ref t))) }
    ensures { OnOk result (out.new
        ≡ out.old ++ form_of (tree_of (types_of types.now) (shape_of_ref t.entry))) }
{
    match t {
        TypeRef::One(elem) => elem_form(alloc, types, elem, out),
        TypeRef::Array(bounds, elem) => {
            put_dimensions(alloc, bounds, out)?;
            elem_form(alloc, types, elem, out)
        }
    }
}

#[cycle(form)]
#[tactic(auto, unfolding(crate::specs::Forms::form_of))]
fn elem_form(
    alloc: Global,
    types: &[NamedType],
    elem: Elem,
    out: &mut Octets,
) -> Result<(), NoMemory>
    requires types { AreTypes (types_of types.now) }
    requires named { IsTrue (is_elem (types_of types.now) (elem_of elem)) }
    ensures { OnOk result (out.new
        ≡ out.old ++ form_of (elem_tree (trees_of (types_of types.now)) (elem_of elem))) }
{
    match elem {
        Elem::Plain(kind) => put_lower(alloc, kind.name().as_bytes(), b"", out),
        Elem::Text(n) => put_string_form(alloc, n, out),
        Elem::Struct(place) => structure_form(alloc, types, place, out),
        Elem::Enum(place) => enumeration_form(alloc, types, place, out),
    }
}

// `name{member:form;member:form;}`
#[cycle(form)]
fn structure_form(
    alloc: Global,
    types: &[NamedType],
    place: u16,
    out: &mut Octets,
) -> Result<(), NoMemory>
    requires types { AreTypes (types_of types.now) }
    requires there { IsTrue (is_structure_at (types_of types.now) place) }
    ensures { OnOk result (out.new ≡ out.old ++ form_of (tree_at (trees_of (types_of types.now)) place)) }
{
    let NamedType::Struct(structure) = &types[place as usize] else {
        unreachable!();
    };
    put_lower(alloc, structure.name.as_slice(), b"{", out)?;
    let members = structure.members.as_slice();
    for member in members {
        put_lower(alloc, member.name.as_slice(), b":", out)?;
        append_form(alloc, types, member.kind.as_ref(), out)?;
        out.push(alloc, b';')?;
    }
    out.push(alloc, b'}')
}

// `name(base)`
fn enumeration_form(
    alloc: Global,
    types: &[NamedType],
    place: u16,
    out: &mut Octets,
) -> Result<(), NoMemory>
    requires types { AreTypes (types_of types.now) }
    requires there { IsTrue (is_enumeration_at (types_of types.now) place) }
    ensures { OnOk result (out.new ≡ out.old ++ form_of (tree_at (trees_of (types_of types.now)) place)) }
{
    let NamedType::Enum(enumeration) = &types[place as usize] else {
        unreachable!();
    };
    put_lower(alloc, enumeration.name.as_slice(), b"(", out)?;
    put_lower(alloc, enumeration.base.name().as_bytes(), b")", out)
}

// `array [1..3] of `
fn put_dimensions(alloc: Global, bounds: &[Bound], out: &mut Octets) -> Result<(), NoMemory>
    ensures { OnOk result (out.new ≡ out.old
        ++ (codes "array [" ++ joined_by_comma (map bound_text (bounds_of bounds.now)) ++ codes "] of ")) }
{
    out.put(alloc, b"array [")?;
    append_bounds(alloc, bounds, out)?;
    out.put(alloc, b"] of ")
}

// `string(80)`
fn put_string_form(alloc: Global, n: u16, out: &mut Octets) -> Result<(), NoMemory>
    ensures { OnOk result (out.new ≡ out.old ++ (codes "string(" ++ decimal n ++ codes ")")) }
{
    let text = format!(in alloc; "string({n})")?;
    out.put(alloc, text.as_bytes())
}

// Appends a text in lower case, and what stands behind it.
fn put_lower(alloc: Global, text: &[u8], behind: &[u8], out: &mut Octets) -> Result<(), NoMemory>
    ensures { OnOk result (out.new ≡ out.old ++ (lower text.now ++ behind.now)) }
{
    let mut low = Octets::copy_of(alloc, text)?;
    low.as_mut_slice().make_ascii_lowercase();
    low.put(alloc, behind)?;
    out.put(alloc, low.as_slice())
}
