//! The frames of requests.

ghost use Rattle.std.specs.Prelude.{◌≡◌, ◌≤◌, IfOk, length};
ghost use Rattle.spec_frames.specs.Frame.{IsAmsPacket, frame_bytes};
ghost use Rattle.spec_formats.specs.Request.{command_of, request_bytes};
ghost use Rattle.spec_client.specs.Client.{request_packet};
ghost use Rattle.ams_header.specs.Header.{address_of};
ghost use Rattle.ads_commands.specs.Request.{IsWritable, request_meant};

use ads_base::{AmsAddr, NoMemory, Octets};
use ads_commands::{Request, put_request};
use ams_header::{AMS_HEADER, Header, REQUEST, put};
use ams_tcp::put_frame;
use std::alloc::Global;

/// The frame of a request.
pub(crate) fn frame_of(
    alloc: Global,
    me: AmsAddr,
    peer: AmsAddr,
    id: u32,
    r: &Request<'_>,
) -> Result<Octets, NoMemory>
    requires { IsWritable r.now }
    ensures { IfOk result (λ frame. frame ≡ frame_bytes (request_packet (address_of me) (address_of peer) id (request_meant r.now))) }
{
    let packet = packet_of(alloc, me, peer, id, r)?;
    let mut frame = Octets::new(alloc);
    put_frame(alloc, packet.as_slice(), &mut frame)?;
    Ok(frame)
}

// The AMS packet of a request.
fn packet_of(
    alloc: Global,
    me: AmsAddr,
    peer: AmsAddr,
    id: u32,
    r: &Request<'_>,
) -> Result<Octets, NoMemory>
    requires { IsWritable r.now }
    ensures packet { IfOk result (λ packet. packet ≡ request_packet (address_of me) (address_of peer) id (request_meant r.now)) }
    ensures fits { IfOk result IsAmsPacket }
{
    let payload = payload_of(alloc, r)?;
    let header = Header {
        target: peer,
        source: me,
        command: command_of(r),
        flags: REQUEST,
        len: payload.len() as u32,
        error: 0,
        id,
    };
    let mut head = [0; AMS_HEADER];
    put(&header, &mut head);
    let mut packet = Octets::copy_of(alloc, &head)?;
    packet.put(alloc, payload.as_slice())?;
    Ok(packet)
}

// The payload of a request.
fn payload_of(alloc: Global, r: &Request<'_>) -> Result<Octets, NoMemory>
    requires { IsWritable r.now }
    ensures bytes { IfOk result (λ payload. payload ≡ request_bytes (request_meant r.now)) }
    ensures bound { IfOk result (λ payload. length payload ≤ 2000040) }
{
    let mut payload = Octets::new(alloc);
    put_request(alloc, r, &mut payload)?;
    Ok(payload)
}

/// The command of a request.
pub(crate) fn command_of(r: &Request<'_>) -> u16
    ensures { result ≡ command_of (request_meant r.now) }
{
    match r {
        Request::DeviceInfo => 1,
        Request::Read { .. } => 2,
        Request::Write { .. } => 3,
        Request::State => 4,
        Request::Control { .. } => 5,
        Request::Add { .. } => 6,
        Request::Delete { .. } => 7,
        Request::Note(_) => 8,
        Request::ReadWrite { .. } => 9,
    }
}
