//! The description that a document writes, built where no rule is broken.
ghost use Rattle.std.specs.Prelude.{◌≡◌, map, IfOk};
ghost use Rattle.spec_rules.specs.Described as described;
ghost use Rattle.type_layout.specs.Descriptions.{description_of, ports_of};
ghost use Rattle.type_layout.specs.NamedTypes.{types_of};
ghost use Rattle.description_rules.specs.KnownTypes.{AreAllKnown};
ghost use Rattle.description_table.specs.Views.{document_view, type_view, port_view};
ghost use Rattle.symbol_file.specs.Fitting.{DocumentFits};

use crate::nets::net_of;
use crate::ports::ports_of;
use crate::routes::routes_of;
use ads_base::NoMemory;
use description_rules::KnownTypes;
use description_table::Document;
use std::alloc::Global;
use type_layout::{Description, PortList, Types};

/// The description that a document writes, of whose types these are.
pub fn build(alloc: Global, known: KnownTypes, d: &Document<'_>) -> Result<Description, NoMemory>
    requires known { AreAllKnown (map type_view d.now.types.items) known }
    requires fits { DocumentFits d.now }
    ensures { IfOk result (λ built. description_of built ≡ described.description_of (document_view d.now)) }
{
    match ports_of(alloc, &known, d.ports.as_slice()) {
        Err(e) => Err(e),
        Ok(ports) => with_routes(alloc, types_in(known), ports, d),
    }
}

fn types_in(known: KnownTypes) -> Types
    ensures { result ≡ known.types }
{
    known.types
}

// The description of these types and ports.
fn with_routes(
    alloc: Global,
    types: Types,
    ports: PortList,
    d: &Document<'_>,
) -> Result<Description, NoMemory>
    requires fits { DocumentFits d.now }
    requires types { types_of types ≡ described.types_described (map type_view d.now.types.items) }
    requires ports { ports_of ports
        ≡ map (described.port_described (types_of types)) (map port_view d.now.ports.items) }
    ensures { IfOk result (λ built. description_of built ≡ described.description_of (document_view d.now)) }
{
    match routes_of(alloc, d.routes.as_slice()) {
        Err(e) => Err(e),
        Ok(routes) => Ok(Description {
            net: net_of(d.net),
            routes,
            types,
            ports,
        }),
    }
}
