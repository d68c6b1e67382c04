//! Types of two lists that are the same: canonical texts are equal, and the types that they name have the same parts.

ghost use Rattle.std.specs.Prelude.{◌≡◌, ◌≤◌, ◌^◌, List, length, map, IfOk, IsTrue, MatchOption};
ghost use Rattle.spec_plant.specs.AcceptedTypes.{AreTypes, is_shape};
ghost use Rattle.spec_plant.specs.Listed as plain;
ghost use Rattle.spec_plant.specs.SameTypes.{is_same_type};
ghost use Rattle.spec_plant.specs.Trees.{tree_of};
ghost use Rattle.type_layout.specs.NamedTypes.{types_of, named_type_of, member_of};
ghost use Rattle.type_layout.specs.SameShapes.{ArePartners, HasNoPartner, IsPartnerAt, is_partner, same_elem, same_bound};
ghost use Rattle.type_layout.specs.SameShapes.{same_bounds, same_shape, same_member, same_members, same_named};
ghost use Rattle.type_layout.specs.Shapes.{elem_of, bound_of, bounds_of, shape_of_ref};

use crate::parts::is_same_name;
use crate::{Bound, Elem, Member, NamedType, TypeRef, Types};
use ads_base::NoMemory;
use std::alloc::Global;
use std::marker::Model;

/// Which named types of two lists are the same. Contracts see, of each type of the first list, the place of the same
/// type in the second, where there is one.
#[derive(Debug, Drop)]
pub struct SameTypes {
    partners: Vec<Option<u16>>,
}

impl Model for SameTypes {
    ghost use Rattle.std.specs.Prelude.{ℕ, List, Option};

    ghost Value = { List (Option ℕ) };

    ghost view = { λ s. s.partners.items };
}

impl SameTypes {
    /// Compares the types of two lists; each type is looked into once.
    pub fn build(alloc: Global, old: &Types, new: &Types) -> Result<SameTypes, NoMemory>
        requires old { AreTypes (types_of old.now) }
        requires new { AreTypes (types_of new.now) }
        ensures { IfOk result (ArePartners (types_of old.now) (types_of new.now) (length (types_of old.now))) }
    {
        let partners = partners_of(alloc, old.as_slice(), new.as_slice())?;
        Ok(SameTypes { partners })
    }

    /// Whether a type of the first list and a type of the second are the same.
    pub fn is_same(&self, a: TypeRef<'_>, b: TypeRef<'_>) -> bool
        ensures { (old new : List plain.NamedType) → AreTypes old → AreTypes new → ArePartners old new (length old) self.now
            → IsTrue (is_shape old (shape_of_ref a.entry)) → IsTrue (is_shape new (shape_of_ref b.entry))
            → result ≡ is_same_type (tree_of old (shape_of_ref a.entry)) (tree_of new (shape_of_ref b.entry)) }
    {
        is_same_shape(self.partners.as_slice(), a, b)
    }
}

fn partners_of(
    alloc: Global,
    old: &[NamedType],
    new: &[NamedType],
) -> Result<Vec<Option<u16>>, NoMemory>
    requires old { AreTypes (types_of old.now) }
    requires new { AreTypes (types_of new.now) }
    ensures { IfOk result (λ partners.
        ArePartners (types_of old.now) (types_of new.now) (length (types_of old.now)) partners.items) }
{
    let mut partners = Vec::new(alloc);
    for named in old {
        let partner = partner_of(partners.as_slice(), named, new);
        partners.push(partner)?;
    }
    Ok(partners)
}

// The place of a type that is the same.
fn partner_of(partners: &[Option<u16>], named: &NamedType, others: &[NamedType]) -> Option<u16>
    requires { length others.now ≤ 2 ^ 16 }
    ensures { MatchOption result (HasNoPartner partners.now (named_type_of named.now) (types_of others.now))
        (IsPartnerAt partners.now (named_type_of named.now) (types_of others.now)) }
{
    for (place, other) in others.iter().enumerate() {
        if is_same_named(partners, named, other) {
            return Some(place as u16);
        }
    }
    None
}

fn is_same_named(partners: &[Option<u16>], a: &NamedType, b: &NamedType) -> bool
    ensures { result ≡ same_named partners.now (named_type_of a.now) (named_type_of b.now) }
{
    match a {
        NamedType::Struct(s) => match b {
            NamedType::Struct(t) => s.name.as_slice() == t.name.as_slice()
                && are_same_members(partners, s.members.as_slice(), t.members.as_slice()),
            NamedType::Enum(_) => false,
        },
        NamedType::Enum(e) => match b {
            NamedType::Struct(_) => false,
            NamedType::Enum(f) => e.name.as_slice() == f.name.as_slice()
                && e.base.name() == f.base.name(),
        },
    }
}

fn are_same_members(partners: &[Option<u16>], ms: &[Member], ns: &[Member]) -> bool
    ensures { result ≡ same_members partners.now (map member_of ms.now) (map member_of ns.now) }
{
    match ms {
        [] => ns.is_empty(),
        [m, more @ ..] => match ns {
            [] => false,
            [n, others @ ..] => is_same_member(partners, m, n)
                && are_same_members(partners, more, others),
        },
    }
}

fn is_same_member(partners: &[Option<u16>], m: &Member, n: &Member) -> bool
    ensures { result ≡ same_member partners.now (member_of m.now) (member_of n.now) }
{
    is_same_name(m.name.as_slice(), n.name.as_slice())
        && is_same_shape(partners, m.kind.as_ref(), n.kind.as_ref())
}

fn is_same_shape(partners: &[Option<u16>], a: TypeRef<'_>, b: TypeRef<'_>) -> bool
    ensures { result ≡ same_shape partners.now (shape_of_ref a.entry) (shape_of_ref b.entry) }
{
    match a {
        TypeRef::One(elem) => match b {
            TypeRef::One(other) => is_same_elem(partners, elem, other),
            TypeRef::Array(_, _) => false,
        },
        TypeRef::Array(bounds, elem) => match b {
            TypeRef::One(_) => false,
            TypeRef::Array(others, other) => are_same_bounds(bounds, others)
                && is_same_elem(partners, elem, other),
        },
    }
}

fn are_same_bounds(bs: &[Bound], cs: &[Bound]) -> bool
    ensures { result ≡ same_bounds (bounds_of bs.now) (bounds_of cs.now) }
{
    match bs {
        [] => cs.is_empty(),
        [b, more @ ..] => match cs {
            [] => false,
            [c, others @ ..] => is_same_bound(*b, *c) && are_same_bounds(more, others),
        },
    }
}

#[tactic(auto, using(crate::proofs::SameNumbers::same_number, crate::proofs::SameNumbers::other_number))]
fn is_same_bound(b: Bound, c: Bound) -> bool
    ensures { result ≡ same_bound (bound_of b) (bound_of c) }
{
    if b.low == c.low {
        b.count == c.count
    } else {
        false
    }
}

fn is_same_elem(partners: &[Option<u16>], a: Elem, b: Elem) -> bool
    ensures { result ≡ same_elem partners.now (elem_of a) (elem_of b) }
{
    match a {
        Elem::Plain(k) => match b {
            Elem::Plain(l) => k.name() == l.name(),
            Elem::Text(_) => false,
            Elem::Struct(_) => false,
            Elem::Enum(_) => false,
        },
        Elem::Text(m) => match b {
            Elem::Plain(_) => false,
            Elem::Text(n) => m == n,
            Elem::Struct(_) => false,
            Elem::Enum(_) => false,
        },
        Elem::Struct(p) => match b {
            Elem::Plain(_) => false,
            Elem::Text(_) => false,
            Elem::Struct(q) => is_partner(partners, p, q),
            Elem::Enum(_) => false,
        },
        Elem::Enum(p) => match b {
            Elem::Plain(_) => false,
            Elem::Text(_) => false,
            Elem::Struct(_) => false,
            Elem::Enum(q) => is_partner(partners, p, q),
        },
    }
}

fn is_partner(partners: &[Option<u16>], p: u16, q: u16) -> bool
    ensures { result ≡ is_partner partners.now p q }
{
    match partners.get(p as usize) {
        None => false,
        Some(partner) => match partner {
            None => false,
            Some(place) => *place == q,
        },
    }
}
