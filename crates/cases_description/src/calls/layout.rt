//! Calls of type_layout.

ghost use Rattle.spec_plant.specs.AcceptedTypes.{AreTypes};
ghost use Rattle.type_layout.specs.NamedTypes.{types_of};

use ads_base::{NoMemory, Octets};
use case_plants::types_of;
use case_sheets::{Answer, Args, Fault};
use std::alloc::Global;
use type_layout::{
    Bound, Bounds, Elem, ElemText, Ends, NamedType, SameTypes, Shape, TypeRef, TypeText, Types,
    read_type_text, type_text,
};

pub fn make(
    alloc: Global,
    call: &str,
    args: &mut Args<'_>,
    answer: &mut Answer,
) -> Result<(), Fault> {
    match call {
        "read_type_text" => type_read(args, answer),
        "type_text" => type_written(alloc, args, answer)?,
        "same_types" => types_compared(alloc, args, answer)?,
        _ => return Err(Fault::NoCall),
    }
    Ok(())
}

fn type_read(args: &mut Args<'_>, answer: &mut Answer) {
    let text = args.octets();
    match read_type_text(text.as_slice()) {
        Some(read) => show(&read, answer),
        None => answer.say("none"),
    }
}

// A description, and a type text that names types of it: the canonical text.
fn type_written(alloc: Global, args: &mut Args<'_>, answer: &mut Answer) -> Result<(), Fault> {
    let types = types_of(alloc, args)?;
    shape_written(alloc, &types, args, answer)
}

fn shape_written(
    alloc: Global,
    types: &Types,
    args: &mut Args<'_>,
    answer: &mut Answer,
) -> Result<(), Fault> {
    let shape = shape_of(alloc, types, args)?;
    say_type(alloc, types, shape.as_ref(), answer)
}

fn say_type(
    alloc: Global,
    types: &Types,
    t: TypeRef<'_>,
    answer: &mut Answer,
) -> Result<(), Fault> {
    let mut out = Octets::new(alloc);
    let put = put_text(alloc, types, t, &mut out);
    answer.quote(out.as_slice());
    put
}

// Two descriptions, and a type text of each: whether the types are the same.
fn types_compared(alloc: Global, args: &mut Args<'_>, answer: &mut Answer) -> Result<(), Fault> {
    let old = types_of(alloc, args)?;
    compared_with(alloc, &old, args, answer)
}

fn compared_with(
    alloc: Global,
    old: &Types,
    args: &mut Args<'_>,
    answer: &mut Answer,
) -> Result<(), Fault>
    requires old { AreTypes (types_of old.now) }
{
    let new = types_of(alloc, args)?;
    shapes_compared(alloc, old, &new, args, answer)
}

fn shapes_compared(
    alloc: Global,
    old: &Types,
    new: &Types,
    args: &mut Args<'_>,
    answer: &mut Answer,
) -> Result<(), Fault>
    requires old { AreTypes (types_of old.now) }
    requires new { AreTypes (types_of new.now) }
{
    let shape = shape_of(alloc, old, args)?;
    compared_to(alloc, old, new, &shape, args, answer)
}

fn compared_to(
    alloc: Global,
    old: &Types,
    new: &Types,
    shape: &Shape,
    args: &mut Args<'_>,
    answer: &mut Answer,
) -> Result<(), Fault>
    requires old { AreTypes (types_of old.now) }
    requires new { AreTypes (types_of new.now) }
{
    let other = shape_of(alloc, new, args)?;
    say_same(alloc, old, new, shape.as_ref(), other.as_ref(), answer)
}

fn say_same(
    alloc: Global,
    old: &Types,
    new: &Types,
    a: TypeRef<'_>,
    b: TypeRef<'_>,
    answer: &mut Answer,
) -> Result<(), Fault>
    requires old { AreTypes (types_of old.now) }
    requires new { AreTypes (types_of new.now) }
{
    let same = SameTypes::build(alloc, old, new)?;
    answer.tell_truth(same.is_same(a, b));
    Ok(())
}

fn put_text(alloc: Global, types: &Types, t: TypeRef<'_>, out: &mut Octets) -> Result<(), Fault> {
    let (TypeRef::One(elem) | TypeRef::Array(_, elem)) = t;
    if let Elem::Struct(place) | Elem::Enum(place) = elem {
        if place as usize >= types.len() {
            return Err(Fault::BadArgument);
        }
    }
    type_text(alloc, types, t, out)?;
    Ok(())
}

// The type that the next word writes.
fn shape_of(alloc: Global, types: &Types, args: &mut Args<'_>) -> Result<Shape, Fault> {
    let text = args.octets();
    let Some(read) = read_type_text(text.as_slice()) else {
        return Err(Fault::BadArgument);
    };
    let Some(elem) = elem_of(types, &read.elem) else {
        return Err(Fault::BadArgument);
    };
    if read.count == 0 {
        return Ok(Shape::One(elem));
    }
    let bounds = bounds_of(alloc, &read)?;
    Ok(Shape::Array(bounds, elem))
}

fn elem_of(types: &Types, text: &ElemText<'_>) -> Option<Elem> {
    match text {
        ElemText::Plain(kind) => Some(Elem::Plain(*kind)),
        ElemText::Text(n) => Some(Elem::Text(*n)),
        ElemText::Named(name) => named(types, name),
    }
}

fn named(types: &Types, name: &[u8]) -> Option<Elem> {
    let mut place = 0u16;
    for t in types.as_slice() {
        match t {
            NamedType::Struct(s) if s.name.as_slice() == name => return Some(Elem::Struct(place)),
            NamedType::Enum(e) if e.name.as_slice() == name => return Some(Elem::Enum(place)),
            _ => place = place.saturating_add(1),
        }
    }
    None
}

fn bounds_of(alloc: Global, read: &TypeText<'_>) -> Result<Bounds, NoMemory> {
    let mut bounds = Bounds::new(alloc);
    bounds.push(alloc, bound_of(read.first))?;
    if read.count > 1 {
        bounds.push(alloc, bound_of(read.second))?;
    }
    if read.count > 2 {
        bounds.push(alloc, bound_of(read.third))?;
    }
    Ok(bounds)
}

// The bound with these ends; one of all numbers of 32 bits has one element less.
fn bound_of(ends: Ends) -> Bound {
    Bound {
        low: ends.low,
        count: ends.high.abs_diff(ends.low).saturating_add(1),
    }
}

// The number of dimensions, the ends of three, and the element.
fn show(read: &TypeText<'_>, answer: &mut Answer) {
    answer.name("dimensions", u64::from(read.count));
    for ends in [read.first, read.second, read.third] {
        answer.tell_signed(i64::from(ends.low));
        answer.tell_signed(i64::from(ends.high));
    }
    match read.elem {
        ElemText::Plain(kind) => answer.tell_kind(kind),
        ElemText::Text(n) => answer.name("text", u64::from(n)),
        ElemText::Named(name) => {
            answer.say("named");
            answer.quote(name);
        }
    }
}
