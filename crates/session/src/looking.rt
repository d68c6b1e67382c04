//! The place of a handle, and the bytes there.

ghost use Rattle.std.specs.Prelude.{◌≡◌, List, IfOk, OnErr};
ghost use Rattle.spec_plant.specs.World.{PlantPort};
ghost use Rattle.spec_machine.specs.Client as client;
ghost use Rattle.spec_machine.specs.Handles as machine;
ghost use Rattle.spec_machine.specs.Reach.{addressed_by_status};
ghost use Rattle.spec_machine.specs.Reads.{read_act};
ghost use Rattle.port_device.specs.Answers.{AnswersAct, IsPlaceOf};
ghost use Rattle.port_device.specs.PortMemory.{PortMemory};
ghost use Rattle.session.specs.Asking.{Asking};
ghost use Rattle.session.specs.Asks.{Asks, SomeAsks, LooksUp};
ghost use Rattle.session.specs.StandsFor.{KeptFor};

use crate::requests::ReadRequest;
use ads_base::{NoMemory, Octets};
use port_device::Port;
use return_codes::Code;
use std::alloc::Global;
use sym_handles::Handles;
use symbol_table::Place;

/// The place of a handle of this port; 0x710 where it was never granted here or is released, 0x711 where it is outdated.
pub(crate) fn look(handles: &Handles, ams_port: u16, handle: u32) -> Result<Place, Code>
    ensures looks { (ports : List PlantPort) (hs : List (machine.Handle client.Place)) → KeptFor ports hs handles.now
        → LooksUp ports ams_port (machine.kept_status hs handle ams_port) result }
    ensures placed { (port : PortMemory) → SomeAsks port handles.now → ams_port ≡ port.number → IfOk result (IsPlaceOf port.table) }
{
    handles.look(handle, ams_port)
}

/// Appends the first bytes of a value by its handle, which is the offset that was asked for.
pub(crate) fn read_value(
    alloc: Global,
    handles: &Handles,
    port: &Port,
    asked: &ReadRequest,
    out: &mut Octets,
) -> Result<Result<(), Code>, NoMemory>
    requires some { SomeAsks port.now handles.now }
    ensures answer { IfOk result (λ answer. (a : Asking) → Asks a port.now handles.now
        → AnswersAct a.world (read_act (addressed_by_status a.asker.port.number
        (machine.kept_status a.client.handles asked.now.offset a.asker.port.number) asked.now.len)) answer out.old out.new) }
    ensures no_memory { OnErr result (out.new ≡ out.old) }
{
    match look(handles, port.number(), asked.offset) {
        Ok(place) => port.read_place(alloc, place, asked.len, out),
        Err(code) => Ok(Err(code)),
    }
}
