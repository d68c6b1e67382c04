//! The ports of a description.
ghost use Rattle.std.specs.Prelude.{◌≡◌, ◌≤◌, ◌-◌, ◌++◌, length, map, replicate, IfOk};
ghost use Rattle.std.specs.List.{All};
ghost use Rattle.spec_rules.specs.Described.{port_described, facts_described, sizes_described};
ghost use Rattle.type_layout.specs.NamedTypes.{types_of};
ghost use Rattle.type_layout.specs.Descriptions.{port_of, ports_of, facts_of, sizes_of};
ghost use Rattle.description_rules.specs.KnownTypes.{IsKnown};
ghost use Rattle.description_table.specs.Views.{port_view};
ghost use Rattle.symbol_file.specs.Fitting.{PortFits, FactsFit, SizesFit};

use crate::numbers::{number8, number16, number32};
use crate::symbols::symbols_of;
use ads_base::{ListOf, NoMemory};
use description_rules::KnownTypes;
use description_table::WrittenPort;
use std::alloc::Global;
use type_layout::{DeviceFacts4, PortDesc, PortList, Sizes};

/// The ports that a document writes.
pub fn ports_of(
    alloc: Global,
    known: &KnownTypes,
    ports: &[WrittenPort<'_>],
) -> Result<PortList, NoMemory>
    requires known { IsKnown known.now }
    requires fit { All (PortFits (types_of known.now.types)) ports.now }
    ensures { IfOk result (λ built. ports_of built ≡ map (port_described (types_of known.now.types)) (map port_view ports.now)) }
{
    let mut built = ListOf::new(alloc);
    for port in ports {
        let one = port_of(alloc, known, port)?;
        built.push(alloc, one)?;
    }
    Ok(built)
}

fn port_of(alloc: Global, known: &KnownTypes, port: &WrittenPort<'_>) -> Result<PortDesc, NoMemory>
    requires known { IsKnown known.now }
    requires fits { PortFits (types_of known.now.types) port.now }
    ensures { IfOk result (λ p. port_of p ≡ port_described (types_of known.now.types) (port_view port.now)) }
{
    let symbols = symbols_of(alloc, known, port.symbols.as_slice())?;
    Ok(PortDesc {
        port: number16(port.number),
        facts: facts_of(port),
        sizes: sizes_of(port),
        symbols,
    })
}

fn facts_of(port: &WrittenPort<'_>) -> DeviceFacts4
    requires { FactsFit port.now }
    ensures { facts_of result ≡ facts_described (port_view port.now) }
{
    DeviceFacts4 {
        major: number8(port.major),
        minor: number8(port.minor),
        build: number16(port.build),
        name: device_name(port.name),
    }
}

// The text, filled up with NULs.
fn device_name(text: &[u8]) -> [u8; 16]
    requires { length text.now ≤ 16 }
    ensures { result ≡ text.now ++ replicate (16 - length text.now) 0 }
{
    let mut name = [0; 16];
    for (i, byte) in text.iter().enumerate() {
        name[i] = *byte;
    }
    name
}

fn sizes_of(port: &WrittenPort<'_>) -> Sizes
    requires { SizesFit port.now }
    ensures { sizes_of result ≡ sizes_described (port_view port.now) }
{
    Sizes {
        inputs: number32(port.inputs),
        outputs: number32(port.outputs),
        memory: number32(port.memory),
        process: number32(port.process),
    }
}
