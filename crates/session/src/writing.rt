//! A single Write of a client at a port: one of a packet, or a part of a sum.

ghost use Rattle.std.specs.Prelude.{◌≡◌};
ghost use Rattle.spec_formats.specs.Request.{Write};
ghost use Rattle.spec_machine.specs.Writes as machine;
ghost use Rattle.type_layout.specs.Descriptions.{rights_of};
ghost use Rattle.port_device.specs.Endings.{IsAsker, KeepsDescription};
ghost use Rattle.port_device.specs.PortMemory.{PortMemory};
ghost use Rattle.session.specs.Asking.{Asking, act_asked};
ghost use Rattle.session.specs.Asks.{Asks, SomeAsks};
ghost use Rattle.session.specs.Ends.{EndsAct, value_write_act};

use crate::asker::Asker;
use crate::groups::{is_release, is_value_by_handle};
use crate::looking::look;
use crate::requests::WriteRequest;
use ads_base::get32;
use port_device::{Port, may_write};
use return_codes::Code;
use sym_handles::Handles;

/// Writes to a value by its handle, releases a handle, or writes what the port reaches by the group.
/// Beckhoff Information System, "ADS Write".
pub(crate) fn write(
    handles: &mut Handles,
    port: &mut Port,
    asker: Asker,
    asked: &WriteRequest<'_>,
) -> Result<(), Code>
    requires some { SomeAsks port.old handles.old }
    ensures ends { (a : Asking) → Asks a port.old handles.old → IsAsker a.asker (rights_of asker.rights) asker.source.net.bytes
        → EndsAct a (act_asked a (Write asked.now.group asked.now.offset asked.now.bytes.now)) result port.new handles.new }
    ensures keeps { KeepsDescription port.old port.new }
{
    if is_release(asked.group) {
        return release(handles, port.number(), asked.bytes);
    }
    if is_value_by_handle(asked.group) {
        return write_value(handles, port, asker, asked.offset, asked.bytes);
    }
    let net = asker.source.net;
    port.write(asked.group, asked.offset, asked.bytes, asker.rights, net)
}

// Releases a handle, whose 4 bytes are the data. Rights are not looked at.
fn release(handles: &mut Handles, ams_port: u16, bytes: &[u8]) -> Result<(), Code>
    ensures ends { (a : Asking) (port : PortMemory) → ams_port ≡ port.number → Asks a port handles.old
        → EndsAct a (machine.release_act a.client a.asker.port bytes.now) result port handles.new }
{
    if bytes.len() != 4 {
        return Err(Code::C705);
    }
    handles.release(get32(bytes, 0), ams_port)
}

// Writes the first bytes of a value by its handle. The rights come first.
fn write_value(
    handles: &Handles,
    port: &mut Port,
    asker: Asker,
    handle: u32,
    bytes: &[u8],
) -> Result<(), Code>
    requires some { SomeAsks port.old handles.now }
    ensures ends { (a : Asking) → Asks a port.old handles.now → IsAsker a.asker (rights_of asker.rights) asker.source.net.bytes
        → EndsAct a (value_write_act a handle bytes.now) result port.new handles.now }
    ensures keeps { KeepsDescription port.old port.new }
{
    if !may_write(asker.rights) {
        return Err(Code::C704);
    }
    match look(handles, port.number(), handle) {
        Ok(place) => port.write_place(place, bytes, asker.rights, asker.source.net),
        Err(code) => Err(code),
    }
}
