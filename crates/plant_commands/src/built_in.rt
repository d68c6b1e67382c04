//! The description that `selftest` plays on.

ghost use Rattle.std.specs.Prelude.{◌≡◌, ℕ, [], ◌∷◌, IfOk};
ghost use Rattle.spec_plant.specs.Accepted.{IsAccepted};
ghost use Rattle.type_layout.specs.Descriptions.{description_of, port_of};
ghost use Rattle.run_tasks.specs.BuiltIn.{built_in};

use ads_base::{NetId, NoMemory};
use std::alloc::Global;
use type_layout::{
    Description, DeviceFacts4, PortDesc, PortList, Rights, RouteDesc, Routes4, Sizes, Symbols,
    Types,
};

/// One machine that may do everything, and one port without symbols.
pub fn built_in_description(alloc: Global) -> Result<Description, NoMemory>
    ensures is { IfOk result (λ d. description_of d ≡ built_in) }
    ensures accepted { IfOk result (λ d. (signals : ℕ) → IsAccepted (description_of d) signals) }
{
    let mut routes = Routes4::new(alloc);
    routes.push(
        alloc,
        RouteDesc {
            net: NetId {
                bytes: [192, 168, 0, 9, 1, 1],
            },
            rights: Rights::Control,
        },
    )?;
    let mut ports = PortList::new(alloc);
    ports.push(alloc, built_in_port(alloc))?;
    Ok(Description {
        net: NetId {
            bytes: [5, 1, 2, 3, 1, 1],
        },
        routes,
        types: Types::new(alloc),
        ports,
    })
}

fn built_in_port(alloc: Global) -> PortDesc
    ensures { port_of result ∷ [] ≡ built_in.ports }
{
    PortDesc {
        port: 851,
        facts: DeviceFacts4 {
            major: 1,
            minor: 0,
            build: 0,
            name: *b"ADS Self Test\0\0\0",
        },
        sizes: Sizes {
            inputs: 0,
            outputs: 0,
            memory: 0,
            process: 0,
        },
        symbols: Symbols::new(alloc),
    }
}
