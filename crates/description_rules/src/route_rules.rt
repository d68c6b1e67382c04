//! Description rules 3 to 5: the schema, NetIds, and the rights of routes.
ghost use Rattle.std.specs.Prelude.{◌≡◌, ◌<◌, [], length, map, is_some, IfOk, IfSome};
ghost use Rattle.spec_rules.specs.Places.{first_wrong};
ghost use Rattle.spec_rules.specs.RouteRules.{wrong_schema, wrong_net, wrong_rights, is_right_route};
ghost use Rattle.spec_rules.specs.Nets.{net_of};
ghost use Rattle.description_rules.specs.Next.{IsNext};
ghost use Rattle.description_table.specs.Views.{route_view};

use crate::nets::read_net;
use crate::seen::SeenTexts;
use crate::words::read_rights;
use ads_base::NoMemory;
use description_table::WrittenRoute;
use std::alloc::Global;

/// Rule 3: the schema is 1 or 2.
#[tactic(auto, unfolding(spec_rules::specs::RouteRules::wrong_schema))]
pub fn wrong_schema(schema: i64) -> Option<usize>
    ensures { result ≡ wrong_schema schema }
{
    if schema == 1 || schema == 2 {
        None
    } else {
        Some(0)
    }
}

/// Rule 4: NetIds, item 0 for the machine's own and 1 plus the place for a route's.
#[tactic(auto, unfolding(spec_rules::specs::RouteRules::wrong_net))]
pub fn wrong_net(
    alloc: Global,
    net: &[u8],
    routes: &[WrittenRoute<'_>],
) -> Result<Option<usize>, NoMemory>
    ensures { IfOk result (λ place. place ≡ wrong_net net.now (map route_view routes.now)) }
{
    if read_net(net).is_none() {
        return Ok(Some(0));
    }
    match wrong_route(alloc, routes)? {
        None => Ok(None),
        Some(place) => Ok(Some(place + 1)),
    }
}

fn wrong_route(alloc: Global, routes: &[WrittenRoute<'_>]) -> Result<Option<usize>, NoMemory>
    ensures first { IfOk result (λ place. place ≡ first_wrong is_right_route [] (map route_view routes.now)) }
    ensures within { IfOk result (λ place. IfSome place (λ i. i < length routes.now)) }
{
    let mut seen = SeenTexts::new(alloc);
    first_wrong_route(alloc, &mut seen, routes)
}

fn first_wrong_route(
    alloc: Global,
    seen: &mut SeenTexts,
    routes: &[WrittenRoute<'_>],
) -> Result<Option<usize>, NoMemory>
    requires { seen.old ≡ [] }
    ensures first { IfOk result (λ place. place ≡ first_wrong is_right_route [] (map route_view routes.now)) }
    ensures within { IfOk result (λ place. IfSome place (λ i. i < length routes.now)) }
{
    for (i, route) in routes.iter().enumerate() {
        if !is_right_route(alloc, seen, route)? {
            return Ok(Some(i));
        }
    }
    Ok(None)
}

fn is_right_route(
    alloc: Global,
    seen: &mut SeenTexts,
    route: &WrittenRoute<'_>,
) -> Result<bool, NoMemory>
    ensures { IfOk result (λ right. IsNext (is_some (net_of route.now.net.now)) seen.old seen.new route.now.net.now right) }
{
    if read_net(route.net).is_none() {
        return Ok(false);
    }
    seen.add(Vec::from_slice(alloc, route.net)?)
}

/// Rule 5: the rights of each route.
#[tactic(auto, unfolding(spec_rules::specs::RouteRules::wrong_rights))]
pub fn wrong_rights(routes: &[WrittenRoute<'_>]) -> Option<usize>
    ensures { result ≡ wrong_rights (map route_view routes.now) }
{
    for (i, route) in routes.iter().enumerate() {
        if read_rights(route.rights).is_none() {
            return Some(i);
        }
    }
    None
}
