//! The routes of a description.
ghost use Rattle.std.specs.Prelude.{◌≡◌, map, unwrap_or, IfOk};
ghost use Rattle.std.specs.List.{All};
ghost use Rattle.spec_plant.specs.Description as plant;
ghost use Rattle.spec_rules.specs.Described as described;
ghost use Rattle.type_layout.specs.Descriptions.{route_of, routes_of, rights_of};
ghost use Rattle.description_table.specs.Views.{route_view};
ghost use Rattle.symbol_file.specs.Fitting.{IsNetText};

use crate::nets::net_of;
use ads_base::{ListOf, NoMemory};
use description_rules::read_rights;
use description_table::WrittenRoute;
use std::alloc::Global;
use type_layout::{Rights, RouteDesc, Routes4};

/// The routes that a document writes.
pub fn routes_of(alloc: Global, routes: &[WrittenRoute<'_>]) -> Result<Routes4, NoMemory>
    requires { All (λ r. IsNetText r.net.now) routes.now }
    ensures { IfOk result (λ built. routes_of built ≡ map described.route_described (map route_view routes.now)) }
{
    let mut built = ListOf::new(alloc);
    for route in routes {
        let one = route_of(route);
        built.push(alloc, one)?;
    }
    Ok(built)
}

fn route_of(route: &WrittenRoute<'_>) -> RouteDesc
    requires { IsNetText route.now.net.now }
    ensures { route_of result ≡ described.route_described (route_view route.now) }
{
    RouteDesc {
        net: net_of(route.net),
        rights: rights_of(route.rights),
    }
}

fn rights_of(text: &[u8]) -> Rights
    ensures { rights_of result ≡ unwrap_or (described.rights_of text.now) plant.Read }
{
    match read_rights(text) {
        Some(rights) => rights,
        None => Rights::Read,
    }
}
