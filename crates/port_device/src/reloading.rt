//! A reload: the ports of an accepted description, with the bytes of the symbols that it keeps.

ghost use Rattle.std.specs.Prelude.{◌≡◌, List, All, IfOk, OnOk, length};
ghost use Rattle.std.specs.Arc.{arc_value};
ghost use Rattle.spec_plant.specs.Listed.{NamedType};
ghost use Rattle.spec_machine.specs.World.{World};
ghost use Rattle.spec_machine.specs.Reloads.{world_after_reload};
ghost use Rattle.type_layout.specs.Descriptions.{description_of, port_of, ports_of};
ghost use Rattle.type_layout.specs.NamedTypes.{types_of};
ghost use Rattle.type_layout.specs.declared.port.PortDesc.{PortDesc};
ghost use Rattle.port_device.specs.Manners.{manner_of};
ghost use Rattle.port_device.specs.FirstPorts.{IsOfAccepted};
ghost use Rattle.port_device.specs.Holds.{HoldsPorts, WasAccepted};
ghost use Rattle.port_device.specs.Moved.{HasTypes};
ghost use Rattle.port_device.specs.PortMemory.{memory_numbered};
ghost use Rattle.port_device.specs.Reloaded.{AreCompared};
ghost use Rattle.port_device.specs.ReloadedPorts.{BeginsWhole, with_kept, after_reload, IsReloadedPort, AreReloadedPorts};
ghost use Rattle.port_device.specs.Uploads.{types_upload};

use crate::building::first_port;
use crate::copying::shared_types;
use crate::counting::types_size;
use crate::kept::put_reloaded;
use crate::{Manner, Port, Ports};
use ads_base::NoMemory;
use std::alloc::Global;
use std::sync::Arc;
use type_layout::{Description, PortDesc, SameTypes, Types};

impl Ports {
    /// The ports of an accepted description after its reload: symbols of the same name and type keep their bytes, ports that
    /// were there their state words, and all else begins anew. The symbol version rises by one, from 255 to 0, and the
    /// server keeps its manner.
    pub fn reload(&self, alloc: Global, d: &Description) -> Result<Ports, NoMemory>
        requires { WasAccepted (description_of d.now) }
        ensures { IfOk result (λ new. (w : World) → HoldsPorts w self.now
            → HoldsPorts (world_after_reload w (description_of d.now)) new) }
    {
        let types = shared_types(alloc, &d.types)?;
        let types_len = types_size(alloc, &types)?;
        let same = SameTypes::build(alloc, &self.types, &types)?;
        let version = self.version.wrapping_add(1);
        let ports = reloaded_ports(
            alloc,
            self,
            &same,
            &types,
            types_len,
            d.ports.as_slice(),
            version,
            self.manner,
        )?;
        Ok(Ports {
            types,
            version,
            manner: self.manner,
            ports,
        })
    }

    // A port as it begins takes over what is kept of the old port of its number.
    fn keep_in(
        &self,
        alloc: Global,
        ams_port: u16,
        port: &mut Port,
        same: &SameTypes,
    ) -> Result<(), NoMemory>
        requires { All BeginsWhole port.old.table.symbols }
        ensures { OnOk result ((before : List NamedType) → AreCompared before port.old.types same.now
            → All (HasTypes before) self.now.ports
            → port.new ≡ after_reload (memory_numbered ams_port self.now.ports) port.old) }
    {
        match self.find(ams_port) {
            None => Ok(()),
            Some(was) => {
                port.keep(alloc, was, same)?;
                Ok(())
            }
        }
    }
}

// The ports of an accepted description with these types, whose upload has `types_len` bytes, with what is kept of old ones.
fn reloaded_ports(
    alloc: Global,
    old: &Ports,
    same: &SameTypes,
    types: &Arc<Types, Global>,
    types_len: u32,
    ports: &[PortDesc],
    version: u8,
    manner: Manner,
) -> Result<Vec<Port>, NoMemory>
    requires each { All (λ (p : PortDesc). IsOfAccepted (types_of (arc_value types.now)) (port_of p)) ports.now }
    requires types_len { types_len ≡ length (types_upload (types_of (arc_value types.now))) }
    ensures { IfOk result (λ built. (before : List NamedType) → AreCompared before (types_of (arc_value types.now)) same.now
        → All (HasTypes before) old.now.ports
        → AreReloadedPorts old.now.ports (types_of (arc_value types.now)) version (manner_of manner) (ports_of ports.now) built.items) }
{
    let mut built = Vec::new(alloc);
    for d in ports {
        let port = reloaded_port(alloc, old, same, types, types_len, d, version, manner)?;
        built.push(port)?;
    }
    Ok(built)
}

// One of them.
fn reloaded_port(
    alloc: Global,
    old: &Ports,
    same: &SameTypes,
    types: &Arc<Types, Global>,
    types_len: u32,
    d: &PortDesc,
    version: u8,
    manner: Manner,
) -> Result<Port, NoMemory>
    requires accepted { IsOfAccepted (types_of (arc_value types.now)) (port_of d.now) }
    requires types_len { types_len ≡ length (types_upload (types_of (arc_value types.now))) }
    ensures { IfOk result (λ m. (before : List NamedType) → AreCompared before (types_of (arc_value types.now)) same.now
        → All (HasTypes before) old.now.ports
        → IsReloadedPort old.now.ports (types_of (arc_value types.now)) (port_of d.now) version (manner_of manner) m) }
{
    let mut port = first_port(alloc, types, types_len, d, version, manner)?;
    old.keep_in(alloc, d.port, &mut port, same)?;
    Ok(port)
}

impl Port {
    // Takes over the bytes of kept symbols, and the state words, of an old port. After want of memory some bytes may be
    // taken over.
    fn keep(&mut self, alloc: Global, was: &Port, same: &SameTypes) -> Result<(), NoMemory>
        requires { All BeginsWhole self.old.table.symbols }
        ensures { OnOk result (AreCompared was.now.types self.old.types same.now → self.new ≡ with_kept was.now self.old) }
    {
        put_reloaded(
            alloc,
            was,
            same,
            self.table.symbols(),
            &self.sizes,
            &mut self.image,
        )?;
        self.ads = was.ads;
        self.device = was.device;
        Ok(())
    }
}
