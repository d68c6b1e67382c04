//! All ports of a plant.

ghost use Rattle.std.specs.Prelude.{◌≡◌, ◌==◌, List, map, Option, option_map, IfOk};
ghost use Rattle.std.specs.Option.{option_copied};
ghost use Rattle.std.specs.Borrow.{sem};
ghost use Rattle.signals.specs.Wave.{Wave};
ghost use Rattle.spec_plant.specs.Description.{Rights};
ghost use Rattle.type_layout.specs.Descriptions.{description_of};
ghost use Rattle.spec_machine.specs.World.{World, world_of, world_in};
ghost use Rattle.spec_machine.specs.WatchedRanges.{numbers_of};
ghost use Rattle.port_device.specs.PortMemory.{PortMemory, memory_numbered};
ghost use Rattle.port_device.specs.Holds.{HoldsPorts, MayBeBuilt};
ghost use Rattle.port_device.specs.PlaceOfPort.{place_numbered};
ghost use Rattle.port_device.specs.Manners.{manner_of};

use crate::building::first_ports;
use crate::copying::shared_types;
use crate::counting::types_size;
use crate::{Manner, Port};
use ads_base::NoMemory;
use std::alloc::Global;
use std::marker::Model;
use std::sync::Arc;
use type_layout::{Description, Types};

/// The ports of a plant, in the order of the description. Contracts see the types, the symbol version and the manner, which
/// they share, and each port.
#[derive(Drop)]
pub struct Ports {
    pub(crate) types: Arc<Types, Global>,
    pub(crate) version: u8,
    pub(crate) manner: Manner,
    pub(crate) ports: Vec<Port>,
}

impl Model for Ports {
    ghost use Rattle.port_device.specs.PortMemory.{PortsMemory};

    ghost Value = { PortsMemory };

    ghost use Rattle.port_device.specs.InsidePorts.{ports_in};
    ghost use Rattle.std.specs.Arc.{arc_value};
    ghost use Rattle.spec_plant.specs.AcceptedTypes.{AreTypes};
    ghost use Rattle.type_layout.specs.NamedTypes.{types_of};

    ghost view = { ports_in };

    ghost invariant = { λ p. AreTypes (types_of (arc_value p.types)) };
}

impl Ports {
    ghost use Rattle.port_device.specs.Lends.{LendsPort};

    /// The ports of an accepted description behind the strict server, as `build_in` makes them.
    pub fn build(alloc: Global, d: &Description) -> Result<Ports, NoMemory>
        requires { MayBeBuilt (description_of d.now) }
        ensures { IfOk result (λ ports. (signals : List Wave) → HoldsPorts (world_of (description_of d.now) signals) ports) }
    {
        let ports = Ports::build_in(alloc, Manner::Strict, d)?;
        Ok(ports)
    }

    /// The ports of an accepted description behind a server of this manner, whatever right it gives to others, with their
    /// first bytes, in state 5 (RUN) and with symbol version 1. Persistent symbols may begin with other bytes than was accepted, as many as they have.
    pub fn build_in(alloc: Global, manner: Manner, d: &Description) -> Result<Ports, NoMemory>
        requires { MayBeBuilt (description_of d.now) }
        ensures { IfOk result (λ ports. (others : Option Rights) (signals : List Wave) → HoldsPorts
            (world_in (record { manner = manner_of manner; others = others }) (description_of d.now) signals) ports) }
    {
        let types = shared_types(alloc, &d.types)?;
        let types_len = types_size(alloc, &types)?;
        let ports = first_ports(alloc, &types, types_len, d.ports.as_slice(), 1, manner)?;
        Ok(Ports {
            types,
            version: 1,
            manner,
            ports,
        })
    }

    /// The symbol version, one for all ports.
    pub fn version(&self) -> u8
        ensures { result ≡ self.now.version }
    {
        self.version
    }

    /// The numbers of the ports, in their order.
    pub fn numbers(&self, alloc: Global) -> Result<Vec<u16>, NoMemory>
        ensures { IfOk result (λ numbers. (w : World) → HoldsPorts w self.now → numbers.items ≡ numbers_of w.plant.ports) }
    {
        numbers_in(alloc, self.ports.as_slice())
    }

    /// The port with a number.
    pub fn find(&self, port: u16) -> Option<&Port>
        ensures { option_copied result ≡ memory_numbered port self.now.ports }
    {
        self.ports.get(place_of(self.ports.as_slice(), port))
    }

    /// The port with a number, for writing. What is left of it is that port from then on, and all others stay.
    pub fn find_mut(&mut self, port: u16) -> Option<&mut Port>
        ensures* lends { sem 𝓛 (LendsPort self.entry port result) }
        ensures value { option_map (λ r. r.now) result ≡ memory_numbered port self.old.ports }
    {
        let place = place_of(self.ports.as_slice(), port);
        self.ports.get_mut(place)
    }
}

// The place of the port with a number in the order of the description; the number of ports where there is none.
fn place_of(ports: &[Port], ams_port: u16) -> usize
    ensures { result ≡ place_numbered ams_port ports.now }
{
    for (i, port) in ports.iter().enumerate() {
        if has_number(port, ams_port) {
            return i;
        }
    }
    ports.len()
}

fn numbers_in(alloc: Global, ports: &[Port]) -> Result<Vec<u16>, NoMemory>
    ensures { IfOk result (λ numbers. numbers.items ≡ map (λ (m : PortMemory). m.number) ports.now) }
{
    let mut numbers = Vec::new(alloc);
    for port in ports {
        numbers.push(number_of(port))?;
    }
    Ok(numbers)
}

fn number_of(port: &Port) -> u16
    ensures { result ≡ port.now.number }
{
    port.ams_port
}

fn has_number(port: &Port, ams_port: u16) -> bool
    ensures { result ≡ (port.now.number == ams_port) }
{
    port.ams_port == ams_port
}
