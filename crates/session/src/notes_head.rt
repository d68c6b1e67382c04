//! What stands before the samples of a frame.

ghost use Rattle.std.specs.Prelude.{◌≡◌, ◌+◌, ◌-◌, ◌<◌, ◌≤◌, ◌++◌, ◌^◌, length, take, drop};
ghost use Rattle.spec_formats.specs.Header.{header_bytes};
ghost use Rattle.notify_table.specs.Specs.{address_of};
ghost use Rattle.session.specs.NoteGroups.{head_text, lead_text, stamp_head_text, notification_header};

use crate::room::{FRAME_HEADER, HEADERS};
use ads_base::{AmsAddr, Octets};
use ams_header::{AMS_HEADER, Header, NOTIFICATION, REQUEST, put};

/// How many bytes stand before the samples: AMS/TCP header 6, AMS header 32, length 4, number of stamps 4, time 8, number of
/// samples 4.
pub(crate) const HEAD: usize = 58;

// How many of these stand behind the headers: length 4, number of stamps 4, time 8, number of samples 4.
const STAMP_HEAD: usize = 20;

// The length of a notification does not count its own bytes.
const LENGTH: u32 = 4;

/// Writes what stands before the samples into the room for it.
pub(crate) fn put_head(bytes: &mut Octets, to: AmsAddr, from: AmsAddr, now: u64, count: u32)
    requires room { 58 ≤ length bytes.old }
    requires short { length bytes.old < 2 ^ 32 }
    ensures head { bytes.new ≡ head_text (notification_header (address_of to) (address_of from) (length bytes.old - 38)) now count
        ++ drop 58 bytes.old }
    ensures header { length (header_bytes (notification_header (address_of to) (address_of from) (length bytes.old - 38))) ≡ 32 }
    ensures len { length bytes.new ≡ length bytes.old }
{
    let len = (bytes.len() - HEADERS) as u32;
    write_at(bytes, 0, &lead(len + AMS_HEADER as u32));
    write_at(bytes, FRAME_HEADER, &header(to, from, len));
    write_at(bytes, HEADERS, &stamp(len - LENGTH, now, count));
}

// Two reserved bytes and the length of the AMS packet.
fn lead(len: u32) -> [u8; FRAME_HEADER]
    ensures { result ≡ lead_text len }
{
    let [l0, l1, l2, l3] = len.to_le_bytes();
    [0, 0, l0, l1, l2, l3]
}

fn header(to: AmsAddr, from: AmsAddr, len: u32) -> [u8; AMS_HEADER]
    ensures { result ≡ header_bytes (notification_header (address_of to) (address_of from) len) }
{
    let header = Header {
        target: to,
        source: from,
        command: NOTIFICATION,
        flags: REQUEST,
        len,
        error: 0,
        id: 0,
    };
    let mut bytes = [0; AMS_HEADER];
    put(&header, &mut bytes);
    bytes
}

// The length of the stamp, one stamp, its moment and the number of its samples.
fn stamp(len: u32, now: u64, count: u32) -> [u8; STAMP_HEAD]
    ensures { result ≡ stamp_head_text len now count }
{
    let [l0, l1, l2, l3] = len.to_le_bytes();
    let [t0, t1, t2, t3, t4, t5, t6, t7] = now.to_le_bytes();
    let [c0, c1, c2, c3] = count.to_le_bytes();
    [
        l0, l1, l2, l3, 1, 0, 0, 0, t0, t1, t2, t3, t4, t5, t6, t7, c0, c1, c2, c3,
    ]
}

// Writes the part over the bytes that stand at a place.
fn write_at(bytes: &mut Octets, at: usize, part: &[u8])
    requires { at + length part.now ≤ length bytes.old }
    ensures written { bytes.new ≡ take at bytes.old ++ part.now ++ drop (at + length part.now) bytes.old }
    ensures len { length bytes.new ≡ length bytes.old }
{
    bytes.as_mut_slice()[at..at + part.len()].copy_from_slice(part);
}
