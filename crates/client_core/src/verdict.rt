//! What one AMS packet says to a client.

ghost use Rattle.std.specs.Prelude.{◌≡◌, IfOk, Some};
ghost use Rattle.spec_formats.specs.Header.{is_same_address, payload_of};
ghost use Rattle.spec_formats.specs.NotificationReading.{notification_of};
ghost use Rattle.spec_client.specs.Client.{Client};
ghost use Rattle.spec_client.specs.Hearing.{response_hearing, notification_hearing};
ghost use Rattle.ams_header.specs.Header.{address_of, ams_header_of};
ghost use Rattle.client_core.specs.Hears.{HasRequests, IsVerdict, IsVerdictOf, Breaks};

use crate::Heard;
use crate::samples::{StampedSample, samples_in};
use crate::unanswered::{Unanswered, is_answer};
use ads_base::{AmsAddr, NoMemory, Octets};
use ads_commands::read_reply;
use ams_header::{AMS_HEADER, Header, NOTIFICATION, read};
use std::alloc::Global;
use std::collections::VecDeque;

/// What a packet leads to.
#[derive(Drop)]
pub(crate) enum Verdict {
    /// It is passed over.
    Passes,
    /// It answers the request of this id.
    Answers(u32, Heard),
    /// It is heard, and nothing changes.
    Says(Heard),
    /// It is a notification with these samples.
    Holds(VecDeque<StampedSample>),
    /// It breaks the protocol; a copy of it.
    Breaks(Octets),
}

/// The verdict on a packet, for a client with these addresses and requests.
pub(crate) fn verdict_on(
    alloc: Global,
    me: &AmsAddr,
    peer: &AmsAddr,
    unanswered: &[Unanswered],
    packet: &[u8],
) -> Result<Verdict, NoMemory>
    ensures { IfOk result (λ verdict. (c : Client) → HasRequests c (address_of me.now) (address_of peer.now) unanswered.now
        → IsVerdict verdict packet.now c) }
{
    let Some((h, payload)) = read(packet) else {
        return Ok(Verdict::Passes);
    };
    if h.len as usize + AMS_HEADER != packet.len() {
        return broken_off(alloc, packet);
    }
    if h.flags % 2 == 1 {
        return on_response(alloc, me, peer, unanswered, &h, packet, payload);
    }
    if h.command == NOTIFICATION {
        return on_notification(alloc, packet, payload);
    }
    Ok(Verdict::Passes)
}

// The packet breaks the protocol.
fn broken_off(alloc: Global, packet: &[u8]) -> Result<Verdict, NoMemory>
    ensures { IfOk result (λ verdict. Breaks verdict packet.now) }
{
    let copy = Octets::copy_of(alloc, packet)?;
    Ok(Verdict::Breaks(copy))
}

// A response.
fn on_response(
    alloc: Global,
    me: &AmsAddr,
    peer: &AmsAddr,
    unanswered: &[Unanswered],
    h: &Header,
    packet: &[u8],
    payload: &[u8],
) -> Result<Verdict, NoMemory>
    requires { payload.now ≡ payload_of packet.now }
    ensures { IfOk result (λ verdict. (c : Client) → HasRequests c (address_of me.now) (address_of peer.now) unanswered.now
        → IsVerdictOf verdict packet.now c (Some (response_hearing c (ams_header_of h.now) packet.now))) }
{
    let asked = is_answer(unanswered, h.id, h.command);
    if !(asked && is_same(&h.source, peer) && is_same(&h.target, me)) {
        return Ok(Verdict::Says(Heard::Stray(h.id)));
    }
    if h.error == 0 && read_reply(h.command, payload).is_none() {
        return broken_off(alloc, packet);
    }
    let bytes = Octets::copy_of(alloc, payload)?;
    Ok(Verdict::Answers(
        h.id,
        Heard::Answered {
            id: h.id,
            error: h.error,
            command: h.command,
            bytes,
        },
    ))
}

// A notification.
fn on_notification(alloc: Global, packet: &[u8], payload: &[u8]) -> Result<Verdict, NoMemory>
    requires { payload.now ≡ payload_of packet.now }
    ensures { IfOk result (λ verdict. (c : Client)
        → IsVerdictOf verdict packet.now c (notification_hearing c packet.now (notification_of payload.now))) }
{
    match samples_in(alloc, payload)? {
        None => broken_off(alloc, packet),
        Some(samples) => Ok(Verdict::Holds(samples)),
    }
}

// Two addresses are the same.
fn is_same(a: &AmsAddr, b: &AmsAddr) -> bool
    ensures { result ≡ is_same_address (address_of a.now) (address_of b.now) }
{
    a.net.bytes.as_slice() == b.net.bytes.as_slice() && a.port == b.port
}
