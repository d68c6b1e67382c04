//! The least broken rule of a document, for the rules that are decided here.
ghost use Rattle.std.specs.Prelude.{◌≡◌, ◌≤◌, ◌∷◌, [], length, map, option_map, IfOk, IsNone};
ghost use Rattle.spec_rules.specs.RouteRules as route_rules;
ghost use Rattle.spec_rules.specs.TypeRules as type_rules;
ghost use Rattle.spec_rules.specs.PortRules as port_rules;
ghost use Rattle.spec_rules.specs.SymbolRules as symbol_rules;
ghost use Rattle.type_layout.specs.NamedTypes.{types_of};
ghost use Rattle.description_rules.specs.KnownTypes.{IsKnown};
ghost use Rattle.spec_rules.specs.Verdict.{first_broken, broken_at};
ghost use Rattle.description_table.specs.Views.{document_view, port_view, type_view};
ghost use Rattle.description_rules.specs.Faults.{fault_view};

use crate::known_types::KnownTypes;
use crate::port_rules::wrong_port;
use crate::route_rules::{wrong_net, wrong_rights, wrong_schema};
use crate::symbol_contents::wrong_content;
use crate::symbol_names::wrong_name;
use crate::symbol_places::wrong_place;
use crate::symbol_signals::wrong_signal;
use crate::symbol_types::wrong_type;
use crate::type_rules::{wrong_part, wrong_type_name};
use crate::uploads::wrong_upload;
use ads_base::NoMemory;
use description_table::{Document, WrittenPort, WrittenType};
use std::alloc::Global;

/// A broken rule, and the least item at which it is broken.
#[derive(Clone, Copy, Debug, PartialEq, Eq)]
pub struct BrokenRule {
    pub number: u8,
    pub item: u32,
}

/// The least broken rule of rules 3 to 7, and in it the least item.
pub fn fault_in_types(alloc: Global, d: &Document<'_>) -> Result<Option<BrokenRule>, NoMemory>
    ensures fault { IfOk result (λ fault. option_map fault_view fault ≡ first_broken (
        (3, route_rules.wrong_schema (document_view d.now).schema)
        ∷ (4, route_rules.wrong_net (document_view d.now).net (document_view d.now).routes)
        ∷ (5, route_rules.wrong_rights (document_view d.now).routes)
        ∷ (6, type_rules.wrong_type_name (document_view d.now).types)
        ∷ (7, type_rules.wrong_part (document_view d.now).types) ∷ [])) }
    ensures few { IfOk result (λ fault. IsNone fault → length d.now.types.items ≤ 1000) }
{
    match fault_in_routes(alloc, d) {
        Err(e) => Err(e),
        Ok(None) => fault_in_named_types(alloc, d.types.as_slice()),
        Ok(Some(fault)) => Ok(Some(fault)),
    }
}

// The least broken rule of rules 3 to 5.
fn fault_in_routes(alloc: Global, d: &Document<'_>) -> Result<Option<BrokenRule>, NoMemory>
    ensures { IfOk result (λ fault. option_map fault_view fault ≡ first_broken (
        (3, route_rules.wrong_schema (document_view d.now).schema)
        ∷ (4, route_rules.wrong_net (document_view d.now).net (document_view d.now).routes)
        ∷ (5, route_rules.wrong_rights (document_view d.now).routes) ∷ [])) }
{
    if let Some(place) = wrong_schema(d.schema) {
        return Ok(Some(broken_at(3, place as u128)));
    }
    let routes = d.routes.as_slice();
    match wrong_net(alloc, d.net, routes) {
        Err(e) => Err(e),
        Ok(Some(place)) => Ok(Some(broken_at(4, place as u128))),
        Ok(None) => match wrong_rights(routes) {
            None => Ok(None),
            Some(place) => Ok(Some(broken_at(5, place as u128))),
        },
    }
}

// The least broken rule of rules 6 and 7.
fn fault_in_named_types(
    alloc: Global,
    types: &[WrittenType<'_>],
) -> Result<Option<BrokenRule>, NoMemory>
    ensures fault { IfOk result (λ fault. option_map fault_view fault ≡ first_broken (
        (6, type_rules.wrong_type_name (map type_view types.now))
        ∷ (7, type_rules.wrong_part (map type_view types.now)) ∷ [])) }
    ensures few { IfOk result (λ fault. IsNone fault → length types.now ≤ 1000) }
{
    match wrong_type_name(alloc, types) {
        Err(e) => Err(e),
        Ok(Some(place)) => Ok(Some(broken_at(6, place as u128))),
        Ok(None) => match wrong_part(alloc, types) {
            Err(e) => Err(e),
            Ok(None) => Ok(None),
            Ok(Some(place)) => Ok(Some(broken_at(7, place))),
        },
    }
}

/// A broken rule; the item stands still at the end of 32 bits.
pub fn broken_at(number: u8, place: u128) -> BrokenRule
    ensures { fault_view result ≡ broken_at number place }
{
    BrokenRule {
        number,
        item: place.min(4_294_967_295) as u32,
    }
}

/// The least broken rule of rules 9 to 14, and in it the least item.
pub fn fault_in_ports(
    alloc: Global,
    known: &KnownTypes,
    signals: u32,
    d: &Document<'_>,
) -> Result<Option<BrokenRule>, NoMemory>
    requires known { IsKnown known.now }
    ensures { IfOk result (λ fault. option_map fault_view fault ≡ first_broken (
        (9, port_rules.wrong_port (document_view d.now).schema (document_view d.now).ports)
        ∷ (10, symbol_rules.wrong_name (document_view d.now).ports)
        ∷ (11, symbol_rules.wrong_type (types_of known.now.types) (document_view d.now).ports)
        ∷ (12, symbol_rules.wrong_place (types_of known.now.types) (document_view d.now).ports)
        ∷ (13, symbol_rules.wrong_content (types_of known.now.types) (document_view d.now).ports)
        ∷ (14, symbol_rules.wrong_signal (types_of known.now.types) signals (document_view d.now).ports) ∷ [])) }
{
    let ports = d.ports.as_slice();
    match fault_in_names(alloc, known, d.schema, ports) {
        Err(e) => Err(e),
        Ok(None) => fault_in_symbols(alloc, known, signals, ports),
        Ok(Some(fault)) => Ok(Some(fault)),
    }
}

// The least broken rule of rules 9 to 11.
fn fault_in_names(
    alloc: Global,
    known: &KnownTypes,
    schema: i64,
    ports: &[WrittenPort<'_>],
) -> Result<Option<BrokenRule>, NoMemory>
    requires known { IsKnown known.now }
    ensures { IfOk result (λ fault. option_map fault_view fault ≡ first_broken (
        (9, port_rules.wrong_port schema (map port_view ports.now))
        ∷ (10, symbol_rules.wrong_name (map port_view ports.now))
        ∷ (11, symbol_rules.wrong_type (types_of known.now.types) (map port_view ports.now)) ∷ [])) }
{
    match wrong_port(alloc, schema, ports) {
        Err(e) => Err(e),
        Ok(Some(place)) => Ok(Some(broken_at(9, place as u128))),
        Ok(None) => match wrong_name(alloc, ports) {
            Err(e) => Err(e),
            Ok(Some(place)) => Ok(Some(broken_at(10, place))),
            Ok(None) => match wrong_type(known, ports) {
                None => Ok(None),
                Some(place) => Ok(Some(broken_at(11, place))),
            },
        },
    }
}

// The least broken rule of rules 12 to 14.
fn fault_in_symbols(
    alloc: Global,
    known: &KnownTypes,
    signals: u32,
    ports: &[WrittenPort<'_>],
) -> Result<Option<BrokenRule>, NoMemory>
    requires known { IsKnown known.now }
    ensures { IfOk result (λ fault. option_map fault_view fault ≡ first_broken (
        (12, symbol_rules.wrong_place (types_of known.now.types) (map port_view ports.now))
        ∷ (13, symbol_rules.wrong_content (types_of known.now.types) (map port_view ports.now))
        ∷ (14, symbol_rules.wrong_signal (types_of known.now.types) signals (map port_view ports.now)) ∷ [])) }
{
    match wrong_place(alloc, known, ports) {
        Err(e) => Err(e),
        Ok(Some(place)) => Ok(Some(broken_at(12, place))),
        Ok(None) => match wrong_content(alloc, known, ports) {
            Err(e) => Err(e),
            Ok(Some(place)) => Ok(Some(broken_at(13, place))),
            Ok(None) => match wrong_signal(alloc, known, signals, ports) {
                Err(e) => Err(e),
                Ok(None) => Ok(None),
                Ok(Some(place)) => Ok(Some(broken_at(14, place as u128))),
            },
        },
    }
}

/// Rule 15 as the broken one, and in it the least port whose upload is too large; or none.
pub fn fault_in_uploads(known: &KnownTypes, d: &Document<'_>) -> Option<BrokenRule>
    requires known { IsKnown known.now }
    ensures { option_map fault_view result ≡ first_broken (
        (15, port_rules.wrong_upload (types_of known.now.types) (document_view d.now).ports) ∷ []) }
{
    match wrong_upload(known, d.ports.as_slice()) {
        None => None,
        Some(place) => Some(broken_at(15, place as u128)),
    }
}
