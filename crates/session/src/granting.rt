//! A single ReadWrite of a client at a port: one of a packet, or a part of a sum.

ghost use Rattle.std.specs.Prelude.{◌≡◌, ◌+◌, ◌≤◌, length, IfOk, OnOk, OnErr};
ghost use Rattle.spec_formats.specs.Request.{ReadWrite};
ghost use Rattle.spec_machine.specs.ByName.{grant_act};
ghost use Rattle.spec_machine.specs.Client as client;
ghost use Rattle.spec_machine.specs.MoreActs.{type_act};
ghost use Rattle.spec_machine.specs.World.{World};
ghost use Rattle.spec_plant.specs.World.{PlantPort};
ghost use Rattle.port_device.specs.Holds.{HoldsPort};
ghost use Rattle.port_device.specs.Answers.{AnswersAct};
ghost use Rattle.port_device.specs.PortMemory.{PortMemory};
ghost use Rattle.session.specs.Asking.{Asking, act_asked, plain_asked, asking_after, after_act};
ghost use Rattle.session.specs.Asks.{Asks, SomeAsks};
ghost use Rattle.session.specs.Grants.{IsPlaceNamed, handle_act};

use crate::groups::is_handle_by_name;
use crate::meaning::{name_meant, up_to_nul, value_len};
use crate::requests::ReadWriteRequest;
use ads_base::{NoMemory, Octets, put32};
use port_device::Port;
use return_codes::Code;
use std::alloc::Global;
use sym_handles::Handles;
use symbol_table::Place;

// The group of the entry of a type by its text, which a wide port knows.
const TYPE_BY_TEXT: u32 = 0xF011;

/// Grants a handle for a name, or appends what the port gives of a name. A wide port takes a name without its NULs and one
/// full stop in front, gives of a value what it has, where more is asked, and gives the entry of a type by its text.
/// Beckhoff Information System, "ADS Read Write".
pub(crate) fn read_write(
    alloc: Global,
    handles: &mut Handles,
    port: &Port,
    asked: &ReadWriteRequest<'_>,
    out: &mut Octets,
) -> Result<Result<(), Code>, NoMemory>
    requires some { SomeAsks port.now handles.old }
    ensures answer { IfOk result (λ answer. (a : Asking) → Asks a port.now handles.old
        → AnswersAct a.world (act_asked a (ReadWrite asked.now.group asked.now.offset asked.now.len asked.now.bytes.now)) answer out.old out.new) }
    ensures leaves { OnOk result ((a : Asking) → Asks a port.now handles.old
        → Asks (asking_after a (ReadWrite asked.now.group asked.now.offset asked.now.len asked.now.bytes.now)) port.now handles.new) }
    ensures asked { OnOk result (length out.new ≤ length out.old + asked.now.len) }
    ensures no_memory { OnErr result (out.new ≡ out.old) }
{
    if !port.is_wide() {
        return read_write_plain(alloc, handles, port, asked, out);
    }
    if asked.group == TYPE_BY_TEXT {
        return type_by_text(alloc, port, asked, out);
    }
    let bytes = name_meant(asked.group, asked.bytes);
    let len = value_len(port, asked.group, asked.len, bytes);
    let meant = ReadWriteRequest {
        group: asked.group,
        offset: asked.offset,
        len,
        bytes,
    };
    read_write_plain(alloc, handles, port, &meant, out)
}

// The entry of the type that a text names, which ends at its first NUL.
fn type_by_text(
    alloc: Global,
    port: &Port,
    asked: &ReadWriteRequest<'_>,
    out: &mut Octets,
) -> Result<Result<(), Code>, NoMemory>
    ensures answer { IfOk result (λ answer. (w : World) (p : PlantPort) → HoldsPort w p port.now
        → AnswersAct w (type_act w.plant asked.now.len asked.now.bytes.now) answer out.old out.new) }
    ensures no_memory { OnErr result (out.new ≡ out.old) }
{
    port.entry_of_type(alloc, asked.len, up_to_nul(asked.bytes), out)
}

// The same of a ReadWrite that is taken as it is written.
fn read_write_plain(
    alloc: Global,
    handles: &mut Handles,
    port: &Port,
    asked: &ReadWriteRequest<'_>,
    out: &mut Octets,
) -> Result<Result<(), Code>, NoMemory>
    ensures answer { IfOk result (λ answer. (a : Asking) → Asks a port.now handles.old
        → AnswersAct a.world (plain_asked a (ReadWrite asked.now.group asked.now.offset asked.now.len asked.now.bytes.now)) answer out.old out.new) }
    ensures leaves { OnOk result ((a : Asking) → Asks a port.now handles.old
        → Asks (after_act a (plain_asked a (ReadWrite asked.now.group asked.now.offset asked.now.len asked.now.bytes.now))) port.now handles.new) }
    ensures no_memory { OnErr result (out.new ≡ out.old) }
{
    if is_handle_by_name(asked.group) {
        return grant(alloc, handles, port, asked, out);
    }
    port.ask(alloc, asked.group, asked.len, asked.bytes, out)
}

// A handle of 4 bytes for what a name leads to: 0x705 for a length below 4, 0x710 where it leads to nothing, then 0x700 where
// no more handles are granted.
fn grant(
    alloc: Global,
    handles: &mut Handles,
    port: &Port,
    asked: &ReadWriteRequest<'_>,
    out: &mut Octets,
) -> Result<Result<(), Code>, NoMemory>
    ensures answer { IfOk result (λ answer. (a : Asking) → Asks a port.now handles.old
        → AnswersAct a.world (handle_act a asked.now.len asked.now.bytes.now) answer out.old out.new) }
    ensures leaves { OnOk result ((a : Asking) → Asks a port.now handles.old
        → Asks (after_act a (handle_act a asked.now.len asked.now.bytes.now)) port.now handles.new) }
    ensures no_memory { OnErr result (out.new ≡ out.old) }
{
    if asked.len < 4 {
        return Ok(Err(Code::C705));
    }
    match port.place(asked.bytes) {
        Ok(place) => grant_place(alloc, handles, port.number(), place, out),
        Err(code) => Ok(Err(code)),
    }
}

// A handle for a place. After want of memory for its number it is granted all the same, and never told.
fn grant_place(
    alloc: Global,
    handles: &mut Handles,
    ams_port: u16,
    place: Place,
    out: &mut Octets,
) -> Result<Result<(), Code>, NoMemory>
    ensures answer { (port : PortMemory) → ams_port ≡ port.number → IfOk result (λ answer. (a : Asking) (named : client.Place) → Asks a port handles.old
        → IsPlaceNamed a place named → AnswersAct a.world (grant_act a.client a.asker.port named) answer out.old out.new) }
    ensures leaves { (port : PortMemory) → ams_port ≡ port.number → OnOk result ((a : Asking) (named : client.Place) → Asks a port handles.old
        → IsPlaceNamed a place named → Asks (after_act a (grant_act a.client a.asker.port named)) port handles.new) }
    ensures no_memory { OnErr result (out.new ≡ out.old) }
{
    match handles.grant(alloc, ams_port, place)? {
        Ok(handle) => {
            put32(alloc, out, handle)?;
            Ok(Ok(()))
        }
        Err(_full) => Ok(Err(Code::C700)),
    }
}
