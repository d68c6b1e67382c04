//! The AMS header of 32 bytes.

ghost use Rattle.std.specs.Prelude.{◌≡◌, ◌+◌, ◌<◌, ◌≤◌, ◌++◌, ◌↔◌, length, drop, IsNone, IfSome, Some};
ghost use Rattle.spec_formats.specs.Header.{address_bytes, address_at, header_bytes, header_of, payload_of, response_header};
ghost use Rattle.ams_header.specs.Header.{address_of, ams_header_of};

use ads_base::{AmsAddr, NetId, get16, get32};

/// Bytes of an AMS header.
pub const AMS_HEADER: usize = 32;

/// The flags of a request: an ADS command.
pub const REQUEST: u16 = 0x0004;

// The flags of a response: an ADS command, and its answer.
const RESPONSE: u16 = 0x0005;

/// The command DeviceNotification.
pub const NOTIFICATION: u16 = 8;

/// An AMS header, 32 bytes on the wire, every number little-endian.
///
/// | field | bytes |
/// |---|---|
/// | target NetId, target port | 6, 2 |
/// | source NetId, source port | 6, 2 |
/// | command, flags | 2, 2 |
/// | data length, error code, invoke id | 4, 4, 4 |
///
/// Beckhoff Information System, "AMS Header".
#[derive(Clone, Copy, Debug, PartialEq, Eq)]
pub struct Header {
    pub target: AmsAddr,
    pub source: AmsAddr,
    pub command: u16,
    pub flags: u16,
    pub len: u32,
    pub error: u32,
    pub id: u32,
}

/// The header of an AMS packet, and all bytes behind it. `None` under 32 bytes.
#[inline(always)]
pub fn read(ams: &[u8]) -> Option<(Header, &[u8])>
    ensures too_short { IsNone result ↔ (length ams.now < 32) }
    ensures text { IfSome result (λ (h, payload). ams.now ≡ header_bytes (ams_header_of h) ++ payload.now) }
    ensures header { IfSome result (λ (h, payload). header_of ams.now ≡ Some (ams_header_of h)) }
    ensures payload { IfSome result (λ (h, payload). payload.now ≡ payload_of ams.now) }
{
    if ams.len() < AMS_HEADER {
        return None;
    }
    Some((header_in(ams), &ams[AMS_HEADER..]))
}

/// The header of an AMS packet, which has 32 bytes at least.
#[inline(always)]
pub fn header_in(ams: &[u8]) -> Header
    requires { 32 ≤ length ams.now }
    ensures text { ams.now ≡ header_bytes (ams_header_of result) ++ payload_of ams.now }
    ensures header { header_of ams.now ≡ Some (ams_header_of result) }
{
    Header {
        target: address_from(ams, 0),
        source: address_from(ams, 8),
        command: get16(ams, 16),
        flags: get16(ams, 18),
        len: get32(ams, 20),
        error: get32(ams, 24),
        id: get32(ams, 28),
    }
}

// The address at a place.
#[inline(always)]
fn address_from(ams: &[u8], at: usize) -> AmsAddr
    requires { at + 8 ≤ length ams.now }
    ensures { address_of result ≡ address_at at ams.now }
{
    let bytes = [
        ams[at],
        ams[at + 1],
        ams[at + 2],
        ams[at + 3],
        ams[at + 4],
        ams[at + 5],
    ];
    AmsAddr {
        net: NetId { bytes },
        port: get16(ams, at + 6),
    }
}

/// Writes the header's 32 bytes.
#[inline(always)]
pub fn put(h: &Header, out: &mut [u8])
    requires { length out.old ≡ 32 }
    ensures { out.new ≡ header_bytes (ams_header_of h.now) }
{
    let [t0, t1, t2, t3, t4, t5, t6, t7] = address_array(&h.target);
    let [s0, s1, s2, s3, s4, s5, s6, s7] = address_array(&h.source);
    let [c0, c1] = h.command.to_le_bytes();
    let [f0, f1] = h.flags.to_le_bytes();
    let [l0, l1, l2, l3] = h.len.to_le_bytes();
    let [e0, e1, e2, e3] = h.error.to_le_bytes();
    let [i0, i1, i2, i3] = h.id.to_le_bytes();
    out.copy_from_slice(&[
        t0, t1, t2, t3, t4, t5, t6, t7, s0, s1, s2, s3, s4, s5, s6, s7, c0, c1, f0, f1, l0, l1, l2,
        l3, e0, e1, e2, e3, i0, i1, i2, i3,
    ]);
}

// NetId 6, port 2.
#[inline(always)]
fn address_array(a: &AmsAddr) -> [u8; 8]
    ensures { result ≡ address_bytes (address_of a.now) }
{
    let [n0, n1, n2, n3, n4, n5] = a.net.bytes;
    let [p0, p1] = a.port.to_le_bytes();
    [n0, n1, n2, n3, n4, n5, p0, p1]
}

/// The header of the answer: the addresses exchanged, command and invoke id kept, the flags of a response.
#[inline(always)]
pub fn answer_of(h: &Header, error: u32, len: u32) -> Header
    ensures { ams_header_of result ≡ response_header (ams_header_of h.now) error len }
{
    Header {
        target: h.source,
        source: h.target,
        command: h.command,
        flags: RESPONSE,
        len,
        error,
        id: h.id,
    }
}
