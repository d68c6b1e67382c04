//! The entry of the type that a text names.

ghost use Rattle.std.specs.Prelude.{◌≡◌, ◌≢◌, ◌<◌, ◌≤◌, ◌^◌, ◌++◌, [], ◌∷◌, length, map, nat_le, nat_lt, ◌||◌, true, position, option_map};
ghost use Rattle.std.specs.Prelude.{IsTrue, IfOk, IfSome, OnOk, OnErr};
ghost use Rattle.spec_plant.specs.AcceptedTypes.{AreTypes, IsSized, LIMIT, is_elem, are_bounds};
ghost use Rattle.spec_plant.specs.Listed.{Array, type_name};
ghost use Rattle.spec_plant.specs.Sizes.{element_count};
ghost use Rattle.spec_plant.specs.Trees.{PlainTree, TextTree, ArrayTree, elem_tree, tree_at, trees_of};
ghost use Rattle.spec_plant.specs.TypeTexts.{is_same_word};
ghost use Rattle.spec_plant.specs.World.{PlantPort};
ghost use Rattle.spec_formats.specs.Ranges.{greatest_len};
ghost use Rattle.spec_machine.specs.MoreActs.{if_type};
ghost use Rattle.spec_plant.specs.Shapes.{place_named, bound_between};
ghost use Rattle.spec_machine.specs.TypesByText.{if_small, tree_of_text};
ghost use Rattle.spec_machine.specs.World.{World};
ghost use Rattle.type_layout.specs.NamedTypes.{types_of, named_type_of};
ghost use Rattle.type_layout.specs.ReadTexts.{ends_of, elem_text_of};
ghost use Rattle.type_layout.specs.Shapes.{kind_of, elem_of, bound_of, bounds_of};
ghost use Rattle.port_device.specs.Answers.{AnswersAct};
ghost use Rattle.port_device.specs.Holds.{HoldsPort};
ghost use Rattle.port_device.specs.TypesPut.{ends_read, elem_tree_of, tree_with, tree_read, is_elem_text, are_few_ends, put_bytes, IsPut};

use crate::port::Port;
use crate::type_ids::elem_id;
use crate::uploads::MOST;
use ads_base::{NoMemory, Octets};
use return_codes::Code;
use std::alloc::Global;
use type_layout::{
    Bound, Bounds, Elem, ElemText, Ends, Kind, NamedType, TypeRef, TypeText, Types, read_type_text,
    size, type_text,
};
use type_upload::{put_type_alone, put_type_at};

// The greatest number of elements, and of bytes, of an array.
const GREATEST: u128 = 1_048_576;

impl Port {
    /// Appends the entry of the type that a text names, written as in a description, ASCII case aside. 0x710 where it names
    /// none, or an array of more than 1,048,576 elements or bytes; then 0x705 where the entry has more bytes than were asked
    /// for. Beckhoff Information System, "AdsDatatypeEntry".
    #[inline(never)]
    pub fn entry_of_type(
        &self,
        alloc: Global,
        len: u32,
        text: &[u8],
        out: &mut Octets,
    ) -> Result<Result<(), Code>, NoMemory>
        ensures answer { IfOk result (λ answer. (w : World) (p : PlantPort) → HoldsPort w p self.now
            → AnswersAct w (if_type (tree_of_text w.plant.types text.now) len) answer out.old out.new) }
        ensures no_memory { OnErr result (out.new ≡ out.old) }
    {
        entry_by_text(alloc, &self.types, len, text, out)
    }
}

// The entry, where there is such a type and it has no more bytes than were asked for.
fn entry_by_text(
    alloc: Global,
    types: &Types,
    len: u32,
    text: &[u8],
    out: &mut Octets,
) -> Result<Result<(), Code>, NoMemory>
    requires { AreTypes (types_of types.now) }
    ensures answer { IfOk result (λ answer. (w : World)
        → AnswersAct w (if_type (tree_of_text (types_of types.now) text.now) len) answer out.old out.new) }
    ensures no_memory { OnErr result (out.new ≡ out.old) }
{
    let mut entry = Octets::new(alloc);
    let there = put_by_text(alloc, types, text, &mut entry)?;
    if !there {
        return Ok(Err(Code::C710));
    }
    if is_too_long(entry.len(), len) {
        return Ok(Err(Code::C705));
    }
    out.put(alloc, entry.as_slice())?;
    Ok(Ok(()))
}

// Whether an entry has more bytes than a reply holds, or than were asked for.
fn is_too_long(size: usize, len: u32) -> bool
    ensures { result ≡ (nat_lt greatest_len size || nat_lt len size) }
{
    (MOST as usize) < size || (len as usize) < size
}

// The entry of the type that a text names, and whether it names one.
#[tactic(auto, unfolding(spec_machine::specs::TypesByText::tree_of_text))]
fn put_by_text(
    alloc: Global,
    types: &Types,
    text: &[u8],
    out: &mut Octets,
) -> Result<bool, NoMemory>
    requires { AreTypes (types_of types.now) }
    ensures put { IfOk result (λ there. IsPut (tree_of_text (types_of types.now) text.now) there out.old out.new) }
    ensures no_memory { OnErr result (out.new ≡ out.old) }
{
    match read_type_text(text) {
        Some(t) => put_read(alloc, types, &t, out),
        None => Ok(false),
    }
}

// The same of a text that was read.
fn put_read(
    alloc: Global,
    types: &Types,
    t: &TypeText<'_>,
    out: &mut Octets,
) -> Result<bool, NoMemory>
    requires types { AreTypes (types_of types.now) }
    requires elem { IsTrue (is_elem_text (elem_text_of t.now.elem)) }
    requires ends { IsTrue (are_few_ends (ends_read t.now)) }
    ensures put { IfOk result (λ there. IsPut (tree_read (types_of types.now) t.now) there out.old out.new) }
    ensures no_memory { OnErr result (out.new ≡ out.old) }
{
    match elem_named(types.as_slice(), t.elem) {
        Some(elem) => put_type(alloc, types, t, elem, out),
        None => Ok(false),
    }
}

// The element that a text names.
fn elem_named(types: &[NamedType], elem: ElemText<'_>) -> Option<Elem>
    requires few { length types.now ≤ 1000 }
    requires text { IsTrue (is_elem_text (elem_text_of elem)) }
    ensures tree { option_map (λ e. elem_tree (trees_of (types_of types.now)) (elem_of e)) result
        ≡ elem_tree_of (types_of types.now) (elem_text_of elem.entry) }
    ensures there { IfSome result (λ e. IsTrue (is_elem (types_of types.now) (elem_of e))) }
{
    match elem {
        ElemText::Plain(kind) => Some(Elem::Plain(kind)),
        ElemText::Text(n) => Some(Elem::Text(n)),
        ElemText::Named(name) => elem_called(types, name),
    }
}

// The type with this name.
fn elem_called(types: &[NamedType], name: &[u8]) -> Option<Elem>
    requires few { length types.now ≤ 1000 }
    ensures tree { option_map (λ e. elem_tree (trees_of (types_of types.now)) (elem_of e)) result
        ≡ option_map (tree_at (trees_of (types_of types.now))) (place_named (types_of types.now) name.now) }
    ensures there { IfSome result (λ e. IsTrue (is_elem (types_of types.now) (elem_of e))) }
{
    match place_named(types, name) {
        Some(place) => Some(elem_at(types, place)),
        None => None,
    }
}

// The place of the first type with this name, ASCII case aside.
fn place_named(types: &[NamedType], name: &[u8]) -> Option<usize>
    ensures place { result ≡ position (λ t. is_same_word (type_name (named_type_of t)) name.now) types.now }
{
    types.iter().position(|t| is_named(t, name))
}

fn is_named(t: &NamedType, name: &[u8]) -> bool
    ensures { result ≡ is_same_word (type_name (named_type_of t.now)) name.now }
{
    match t {
        NamedType::Struct(s) => s.name.as_slice().eq_ignore_ascii_case(name),
        NamedType::Enum(e) => e.name.as_slice().eq_ignore_ascii_case(name),
    }
}

// The type at a place.
fn elem_at(types: &[NamedType], place: usize) -> Elem
    requires few { length types.now ≤ 1000 }
    requires there { place < length types.now }
    ensures tree { elem_tree (trees_of (types_of types.now)) (elem_of result) ≡ tree_at (trees_of (types_of types.now)) place }
    ensures there { IsTrue (is_elem (types_of types.now) (elem_of result)) }
{
    match &types[place] {
        NamedType::Struct(_) => Elem::Struct(place as u16),
        NamedType::Enum(_) => Elem::Enum(place as u16),
    }
}

// The type with this element, and whether it is small enough.
fn put_type(
    alloc: Global,
    types: &Types,
    t: &TypeText<'_>,
    elem: Elem,
    out: &mut Octets,
) -> Result<bool, NoMemory>
    requires types { AreTypes (types_of types.now) }
    requires there { IsTrue (is_elem (types_of types.now) (elem_of elem)) }
    requires ends { IsTrue (are_few_ends (ends_read t.now)) }
    ensures put { IfOk result (λ there. IsPut (if_small (tree_with (ends_read t.now)
        (elem_tree (trees_of (types_of types.now)) (elem_of elem)))) there out.old out.new) }
    ensures no_memory { OnErr result (out.new ≡ out.old) }
{
    if t.count == 0 {
        return put_one(alloc, types, elem, out);
    }
    put_array(alloc, types, t, elem, out)
}

// An element, which is always small enough.
fn put_one(alloc: Global, types: &Types, elem: Elem, out: &mut Octets) -> Result<bool, NoMemory>
    requires types { AreTypes (types_of types.now) }
    requires there { IsTrue (is_elem (types_of types.now) (elem_of elem)) }
    ensures put { IfOk result (λ there. IsPut (if_small (elem_tree (trees_of (types_of types.now)) (elem_of elem))) there out.old out.new) }
    ensures no_memory { OnErr result (out.new ≡ out.old) }
{
    put_elem(alloc, types, elem, out)?;
    Ok(true)
}

// The entry of an element. A plain type and a text stand in no upload.
fn put_elem(alloc: Global, types: &Types, elem: Elem, out: &mut Octets) -> Result<(), NoMemory>
    requires types { AreTypes (types_of types.now) }
    requires there { IsTrue (is_elem (types_of types.now) (elem_of elem)) }
    ensures ok { OnOk result (out.new ≡ out.old ++ put_bytes (elem_tree (trees_of (types_of types.now)) (elem_of elem))) }
    ensures no_memory { OnErr result (out.new ≡ out.old) }
{
    match elem {
        Elem::Plain(kind) => put_plain(alloc, types, kind, out),
        Elem::Text(n) => put_text(alloc, types, n, out),
        Elem::Struct(place) => put_named(alloc, types, place, out),
        Elem::Enum(place) => put_named(alloc, types, place, out),
    }
}

fn put_plain(alloc: Global, types: &Types, kind: Kind, out: &mut Octets) -> Result<(), NoMemory>
    requires { AreTypes (types_of types.now) }
    ensures ok { OnOk result (out.new ≡ out.old ++ put_bytes (PlainTree (kind_of kind))) }
    ensures no_memory { OnErr result (out.new ≡ out.old) }
{
    let t = TypeRef::One(Elem::Plain(kind));
    put_type_alone(alloc, types, t, kind.type_id(), b"", out)
}

fn put_text(alloc: Global, types: &Types, n: u16, out: &mut Octets) -> Result<(), NoMemory>
    requires types { AreTypes (types_of types.now) }
    requires short { IsTrue (nat_le n 65534) }
    ensures ok { OnOk result (out.new ≡ out.old ++ put_bytes (TextTree n)) }
    ensures no_memory { OnErr result (out.new ≡ out.old) }
{
    let t = TypeRef::One(Elem::Text(n));
    put_type_alone(alloc, types, t, 30, b"", out)
}

fn put_named(alloc: Global, types: &Types, place: u16, out: &mut Octets) -> Result<(), NoMemory>
    requires types { AreTypes (types_of types.now) }
    requires there { place < length (types_of types.now) }
    ensures ok { OnOk result (out.new ≡ out.old ++ put_bytes (tree_at (trees_of (types_of types.now)) place)) }
    ensures no_memory { OnErr result (out.new ≡ out.old) }
{
    put_type_at(alloc, types, place, out)
}

// The entry of an array that a text was read as, and whether it is small enough.
fn put_array(
    alloc: Global,
    types: &Types,
    t: &TypeText<'_>,
    elem: Elem,
    out: &mut Octets,
) -> Result<bool, NoMemory>
    requires types { AreTypes (types_of types.now) }
    requires there { IsTrue (is_elem (types_of types.now) (elem_of elem)) }
    requires ends { IsTrue (are_few_ends (ends_read t.now)) }
    requires array { t.now.count ≢ 0 }
    ensures put { IfOk result (λ there. IsPut (if_small (tree_with (ends_read t.now)
        (elem_tree (trees_of (types_of types.now)) (elem_of elem)))) there out.old out.new) }
    ensures no_memory { OnErr result (out.new ≡ out.old) }
{
    let count = element_count(t);
    if GREATEST < count {
        return Ok(false);
    }
    let mut bounds = Bounds::new(alloc);
    put_bounds(alloc, &mut bounds, t)?;
    put_few(alloc, types, bounds.as_slice(), count, elem, out)
}

// The number of elements, 1 where it is no array.
fn element_count(t: &TypeText<'_>) -> u128
    ensures count { result ≡ element_count (map bound_between (ends_read t.now)) }
    ensures bound { result ≤ 2 ^ 96 }
{
    let first = index_count(t.first) as u128;
    let second = index_count(t.second) as u128;
    let third = index_count(t.third) as u128;
    match t.count {
        0 => 1,
        1 => first,
        2 => first * second,
        _ => first * (second * third),
    }
}

// The number of indexes of one dimension.
fn index_count(e: Ends) -> u64
    ensures count { result ≡ (bound_between (ends_of e)).count }
    ensures small { result ≤ 4294967296 }
{
    (e.high as i64 - e.low as i64).unsigned_abs() + 1
}

// The dimensions.
fn put_bounds(alloc: Global, bounds: &mut Bounds, t: &TypeText<'_>) -> Result<(), NoMemory>
    requires none { bounds.old ≡ [] }
    requires small { nat_le (element_count (map bound_between (ends_read t.now))) LIMIT ≡ true }
    ensures { OnOk result (bounds_of bounds.new ≡ map bound_between (ends_read t.now)) }
{
    match t.count {
        0 => Ok(()),
        1 => bounds.push(alloc, bound_of(t.first)),
        2 => {
            bounds.push(alloc, bound_of(t.first))?;
            bounds.push(alloc, bound_of(t.second))
        }
        _ => {
            bounds.push(alloc, bound_of(t.first))?;
            bounds.push(alloc, bound_of(t.second))?;
            bounds.push(alloc, bound_of(t.third))
        }
    }
}

fn bound_of(e: Ends) -> Bound
    requires { (bound_between (ends_of e)).count ≤ 1048576 }
    ensures { bound_of result ≡ bound_between (ends_of e) }
{
    Bound {
        low: e.low,
        count: index_count(e) as u32,
    }
}

// The entry of an array of so many elements, and whether it has few enough bytes.
fn put_few(
    alloc: Global,
    types: &Types,
    bounds: &[Bound],
    count: u128,
    elem: Elem,
    out: &mut Octets,
) -> Result<bool, NoMemory>
    requires types { AreTypes (types_of types.now) }
    requires there { IsTrue (is_elem (types_of types.now) (elem_of elem)) }
    requires bounds { IsTrue (are_bounds (bounds_of bounds.now)) }
    requires count { count ≡ element_count (bounds_of bounds.now) }
    requires few { count ≤ LIMIT }
    ensures put { IfOk result (λ there. IsPut (if_small (ArrayTree (bounds_of bounds.now)
        (elem_tree (trees_of (types_of types.now)) (elem_of elem)))) there out.old out.new) }
    ensures no_memory { OnErr result (out.new ≡ out.old) }
{
    let each = size(types, TypeRef::One(elem)) as u128;
    if GREATEST < count * each {
        return Ok(false);
    }
    put_sized(alloc, types, bounds, elem, out)?;
    Ok(true)
}

// The entry of an array.
fn put_sized(
    alloc: Global,
    types: &Types,
    bounds: &[Bound],
    elem: Elem,
    out: &mut Octets,
) -> Result<(), NoMemory>
    requires types { AreTypes (types_of types.now) }
    requires sized { IsSized (types_of types.now) (Array (bounds_of bounds.now) (elem_of elem)) }
    requires bounds { IsTrue (are_bounds (bounds_of bounds.now)) }
    ensures ok { OnOk result (out.new ≡ out.old ++ put_bytes (ArrayTree (bounds_of bounds.now)
        (elem_tree (trees_of (types_of types.now)) (elem_of elem)))) }
    ensures no_memory { OnErr result (out.new ≡ out.old) }
{
    let mut kind = Octets::new(alloc);
    type_text(alloc, types, TypeRef::One(elem), &mut kind)?;
    let id = elem_id(types, elem);
    put_type_alone(
        alloc,
        types,
        TypeRef::Array(bounds, elem),
        id,
        kind.as_slice(),
        out,
    )
}
