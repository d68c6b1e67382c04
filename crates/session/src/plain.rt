//! Plain packets: most packets are a Read, a Write or a ReadState that passes all checks, and have a way of their own.

ghost use Rattle.std.specs.Prelude.{◌≡◌, ◌≤◌, ℕ, List, length, IfSome, IsTrue};
ghost use Rattle.spec_formats.specs.Header.{payload_of};
ghost use Rattle.ams_header.specs.Header.{ams_header_of};
ghost use Rattle.session.specs.Plain.{IsPlain, IsPlainPayload, PassesHeader};

use ads_base::{NetId, get32};
use ams_header::{Header, REQUEST, header_in};
use net_routes::Admission;
use type_layout::Rights;

/// The commands that have a way of their own.
#[derive(Clone, Copy)]
pub(crate) enum Plain {
    Read,
    Write,
    State,
}

/// A plain packet: its header, the rights of its source, and its command.
#[derive(Clone, Copy)]
pub(crate) struct PlainPacket {
    pub(crate) h: Header,
    pub(crate) rights: Rights,
    pub(crate) kind: Plain,
}

/// A packet that is plain. Where none is given, a check may stop it, or it has no way of its own.
/// Beckhoff Information System, "AMS Header".
#[inline(always)]
pub(crate) fn plain_in(ams: &[u8], admission: &Admission, net: NetId) -> Option<PlainPacket>
    requires { 32 ≤ length ams.now }
    ensures { IfSome result (λ packet. IsPlain ams.now net.bytes admission.now packet) }
{
    let h = header_in(ams);
    let payload = payload_in(ams);
    if !passes(&h, payload.len(), net) {
        return None;
    }
    match (admission.rights(h.source.net), kind_of(h.command, payload)) {
        (Some(rights), Some(kind)) => Some(PlainPacket { h, rights, kind }),
        _ => None,
    }
}

/// What stands behind the header of an AMS packet.
#[inline(always)]
pub(crate) fn payload_in(ams: &[u8]) -> &[u8]
    requires { 32 ≤ length ams.now }
    ensures { result.now ≡ payload_of ams.now }
{
    &ams[32..]
}

// Whether the header of a packet with so many bytes of payload passes its checks.
#[inline(always)]
fn passes(h: &Header, len: usize, net: NetId) -> bool
    ensures { IsTrue result → (ams : List ℕ) → len ≡ length (payload_of ams) → PassesHeader ams net.bytes (ams_header_of h.now) }
{
    h.flags == REQUEST && h.len as usize == len && h.target.net.is(net)
}

// The command, where it has a way of its own and the payload is one of its requests.
#[inline(always)]
fn kind_of(command: u16, payload: &[u8]) -> Option<Plain>
    ensures { IfSome result (IsPlainPayload command payload.now) }
{
    match command {
        2 => read_kind(payload),
        3 => write_kind(payload),
        4 => state_kind(payload),
        _ => None,
    }
}

#[inline(always)]
#[tactic(auto, unfolding(spec_formats::specs::Request::request_of, spec_formats::specs::Request::request_in))]
fn read_kind(payload: &[u8]) -> Option<Plain>
    ensures { IfSome result (IsPlainPayload 2 payload.now) }
{
    if payload.len() != 12 {
        return None;
    }
    Some(Plain::Read)
}

#[inline(always)]
#[tactic(auto, unfolding(spec_formats::specs::Request::request_of, spec_formats::specs::Request::request_in))]
fn write_kind(payload: &[u8]) -> Option<Plain>
    ensures { IfSome result (IsPlainPayload 3 payload.now) }
{
    if payload.len() < 12 {
        return None;
    }
    if payload.len() - 12 != get32(payload, 8) as usize {
        return None;
    }
    Some(Plain::Write)
}

#[inline(always)]
#[tactic(auto, unfolding(spec_formats::specs::Request::request_of, spec_formats::specs::Request::request_in))]
fn state_kind(payload: &[u8]) -> Option<Plain>
    ensures { IfSome result (IsPlainPayload 4 payload.now) }
{
    if payload.len() != 0 {
        return None;
    }
    Some(Plain::State)
}
