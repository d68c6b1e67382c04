//! Requests of the clients, each in a frame of its own on a line of its own.

ghost use Rattle.std.specs.Prelude.{◌≡◌, ◌≤◌, ◌++◌, length, OnOk};
ghost use Rattle.spec_formats.specs.Header.{request_flags, header_bytes};
ghost use Rattle.spec_formats.specs.Request.{command_of, request_bytes};
ghost use Rattle.ads_commands.specs.Request.{IsWritable, request_meant};
ghost use Rattle.ams_header.specs.Header.{ams_header_of};
ghost use Rattle.load_maker.specs.MadeLines.{line_text};
ghost use Rattle.load_maker.specs.LoadScript.{plant_address, client_address, request_line};

use crate::lines::put_sent;
use crate::numbers::{CLIENT_PORTS, PLANT_PORT};
use crate::room::Room;
use ads_base::{AmsAddr, NetId, NoMemory, Octets};
use ads_commands::{Request, put_request};
use ams_header::{AMS_HEADER, Header, REQUEST, put};
use ams_tcp::put_frame;
use std::alloc::Global;

/// Appends the line of a client's request with this invoke id. `command` is the request's, and `len` the length of its
/// payload. What the room holds is replaced.
pub fn put_request_line(
    alloc: Global,
    room: &mut Room,
    out: &mut Octets,
    client: u8,
    id: u32,
    command: u16,
    len: u32,
    request: &Request<'_>,
) -> Result<(), NoMemory>
    requires writable { IsWritable request.now }
    requires command { command ≡ command_of (request_meant request.now) }
    requires len { len ≡ length (request_bytes (request_meant request.now)) }
    requires short { len ≤ 1000 }
    ensures { OnOk result (out.new ≡ out.old ++ line_text (request_line client id (request_meant request.now))) }
{
    let header = header_of(client, id, command, len);
    put_packet(alloc, &mut room.packet, &header, request)?;
    room.frame.cut(0);
    put_frame(alloc, room.packet.as_slice(), &mut room.frame)?;
    put_sent(alloc, out, u32::from(client), room.frame.as_slice())?;
    Ok(())
}

// The AMS packet of a request, in place of what stood there.
fn put_packet(
    alloc: Global,
    packet: &mut Octets,
    header: &Header,
    request: &Request<'_>,
) -> Result<(), NoMemory>
    requires writable { IsWritable request.now }
    ensures { OnOk result (packet.new ≡ header_bytes (ams_header_of header.now) ++ request_bytes (request_meant request.now)) }
{
    let mut head = [0; AMS_HEADER];
    put(header, &mut head);
    packet.cut(0);
    packet.put(alloc, &head)?;
    put_request(alloc, request, packet)?;
    Ok(())
}

fn header_of(client: u8, id: u32, command: u16, len: u32) -> Header
    ensures { ams_header_of result ≡ record {
      target = plant_address;
      source = client_address client;
      command = command;
      flags = request_flags;
      len = len;
      error = 0;
      id = id;
    } }
{
    Header {
        target: AmsAddr {
            net: NetId {
                bytes: [5, 1, 2, 3, 1, 1],
            },
            port: PLANT_PORT,
        },
        source: AmsAddr {
            net: NetId {
                bytes: [10, 0, 0, client, 1, 1],
            },
            port: CLIENT_PORTS + u16::from(client),
        },
        command,
        flags: REQUEST,
        len,
        error: 0,
        id,
    }
}
