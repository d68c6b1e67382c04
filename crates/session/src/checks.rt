//! The checks of an AMS packet, in their order.

ghost use Rattle.std.specs.Prelude.{◌≡◌, List, ℕ, Some};
ghost use Rattle.spec_plant.specs.World.{PlantPort};
ghost use Rattle.spec_formats.specs.Header.{payload_of};
ghost use Rattle.spec_machine.specs.Client.{Client};
ghost use Rattle.spec_machine.specs.Packets.{source_rights};
ghost use Rattle.spec_machine.specs.World.{World, setup_of, port_numbered};
ghost use Rattle.ams_header.specs.Header.{ams_header_of};
ghost use Rattle.port_device.specs.Holds.{HoldsPorts};
ghost use Rattle.session.specs.PacketChecks.{Examines, HasPassed};
ghost use Rattle.session.specs.Takes.{HasAddress};
ghost use Rattle.type_layout.specs.Descriptions.{rights_of};

use crate::examined::Examined;
use ads_base::NetId;
use ads_commands::{ReadFault, read_request};
use ams_header::{Header, NOTIFICATION, REQUEST, read};
use net_routes::Admission;
use port_device::Ports;
use return_codes::Code;
use type_layout::Rights;

/// Examines a packet. Beckhoff Information System, "AMS Header", "ADS Commands".
pub(crate) fn examined<'a>(
    ams: &'a [u8],
    ports: &Ports,
    admission: &Admission,
    net: NetId,
) -> Examined<'a>
    ensures { (w : World) (c : Client) → HoldsPorts w ports.now → HasAddress w net.bytes admission.now
        → Examines w c ams.now result }
{
    match read(ams) {
        Some((h, payload)) => examined_header(h, payload, ports, admission, net),
        None => Examined::Silent,
    }
}

// The first three checks: its data length, and that it is a request.
fn examined_header<'a>(
    h: Header,
    payload: &'a [u8],
    ports: &Ports,
    admission: &Admission,
    net: NetId,
) -> Examined<'a>
    ensures { (w : World) (c : Client) (ams : List ℕ) → HoldsPorts w ports.now → HasAddress w net.bytes admission.now
        → HasPassed 0 w c ams (ams_header_of h) → payload.entry.now ≡ payload_of ams → Examines w c ams result }
{
    if h.len as usize != payload.len() {
        return Examined::Error(h, Code::CE);
    }
    if h.flags % 2 == 1 {
        return Examined::Silent;
    }
    if h.flags != REQUEST {
        return Examined::Error(h, Code::CB);
    }
    examined_addresses(h, payload, ports, admission, net)
}

// The next three: the rights of its source, its machine, and its port.
fn examined_addresses<'a>(
    h: Header,
    payload: &'a [u8],
    ports: &Ports,
    admission: &Admission,
    net: NetId,
) -> Examined<'a>
    ensures { (w : World) (c : Client) (ams : List ℕ) → HoldsPorts w ports.now → HasAddress w net.bytes admission.now
        → HasPassed 3 w c ams (ams_header_of h) → payload.entry.now ≡ payload_of ams → Examines w c ams result }
{
    let Some(rights) = admission.rights(h.source.net) else {
        return Examined::Close;
    };
    if !h.target.net.is(net) {
        return Examined::Error(h, Code::C7);
    }
    if ports.find(h.target.port).is_none() {
        return Examined::Error(h, Code::C6);
    }
    examined_command(h, rights, payload)
}

// The last three: its command, and its payload.
fn examined_command<'a>(h: Header, rights: Rights, payload: &'a [u8]) -> Examined<'a>
    ensures { (w : World) (c : Client) (ams : List ℕ) (port : PlantPort) → HasPassed 6 w c ams (ams_header_of h)
        → source_rights (setup_of w) (ams_header_of h) ≡ Some (rights_of rights)
        → port_numbered h.target.port w.plant.ports ≡ Some port → payload.entry.now ≡ payload_of ams
        → Examines w c ams result }
{
    if h.command == NOTIFICATION {
        return Examined::Silent;
    }
    match read_request(h.command, payload) {
        Ok(request) => Examined::Asked(h, rights, request),
        Err(ReadFault::BadCommand) => Examined::Error(h, Code::C8),
        Err(ReadFault::BadSize) => Examined::Refused(h),
    }
}
