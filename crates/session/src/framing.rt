//! The frame of an answer.

ghost use Rattle.std.specs.Prelude.{◌-◌, IsTrue, false, ◌≡◌, ◌≤◌, ◌<◌, ◌+◌, ◌^◌, ◌++◌, length, take, drop, Some, OnOk, OnErr};
ghost use Rattle.spec_formats.specs.Codes.{no_error};
ghost use Rattle.spec_formats.specs.Header.{AmsHeader, header_of};
ghost use Rattle.spec_frames.specs.Frame.{frame_bytes};
ghost use Rattle.spec_machine.specs.Replies.{response_packet};
ghost use Rattle.ams_header.specs.Header.{ams_header_of};
ghost use Rattle.std.specs.Int.{w64, to_le_bytes};
ghost use Rattle.session.specs.Plain.{answer_fields, answer_headers, frame_front};
ghost use Rattle.session.specs.Answered.{AppendsFrame};

use crate::room::{FRAME_HEADER, HEADERS, write_at};
use ads_base::{NoMemory, Octets, get16, get32, get64};
use ams_header::{AMS_HEADER, Header, answer_of, put};
use std::alloc::Global;

/// Fills in the headers of an answer, whose room starts at a place, in front of its payload. A frame whose length does not
/// fit 32 bits finds no memory and is cut off, and every other frame is given.
#[inline(always)]
pub(crate) fn framed(h: &Header, error: u32, start: usize, out: &mut Octets) -> Result<(), NoMemory>
    requires { start + 38 ≤ length out.old }
    ensures frame { OnOk result (out.new
        ≡ take start out.old ++ frame_bytes (response_packet (ams_header_of h.now) error (drop (start + 38) out.old))) }
    ensures fits { OnOk result ((start + 38 ≤ length out.new) × (length out.new < start + 2 ^ 32)) }
    ensures too_long { OnErr result (start + 2 ^ 32 ≤ length out.old) }
    ensures cut { OnErr result (out.new ≡ take start out.old) }
{
    if is_too_long(out, start) {
        out.cut(start);
        return Err(NoMemory);
    }
    fill_headers(h, error, start, out);
    Ok(())
}

/// Appends the frame of the answer to a packet, without an AMS error, whose payload is an array.
#[inline(always)]
pub(crate) fn put_answer<const N: usize>(
    alloc: Global,
    ams: &[u8],
    payload: &[u8; N],
    out: &mut Octets,
) -> Result<(), NoMemory>
    requires long { 32 ≤ length ams.now }
    requires short { length payload.now ≤ 255 }
    ensures frame { OnOk result ((h : AmsHeader) → header_of ams.now ≡ Some h
        → out.new ≡ out.old ++ frame_bytes (response_packet h no_error payload.now)) }
    ensures appends { OnOk result (AppendsFrame out.old out.new) }
    ensures no_memory { OnErr result (out.new ≡ out.old) }
{
    let start = out.len();
    out.put_array(alloc, &headers_for(ams, payload.len() as u32))?;
    match out.put_array(alloc, payload) {
        Ok(()) => Ok(()),
        Err(no_memory) => {
            out.cut(start);
            Err(no_memory)
        }
    }
}

/// The headers of the answer to a packet, without an AMS error, in front of so many bytes.
#[inline(always)]
pub(crate) fn headers_for(ams: &[u8], len: u32) -> [u8; HEADERS]
    requires long { 32 ≤ length ams.now }
    requires short { len + 38 < 2 ^ 32 }
    ensures { (h : AmsHeader) → header_of ams.now ≡ Some h → result ≡ answer_headers h len }
{
    headers_of(
        len,
        get64(ams, 8),
        get64(ams, 0),
        get16(ams, 16),
        get32(ams, 28),
    )
}

// The same of the addresses as numbers, the command and the invoke id. Each number is moved in one step.
#[inline(always)]
fn headers_of(len: u32, source: u64, target: u64, command: u16, id: u32) -> [u8; HEADERS]
    requires { len + 38 < 2 ^ 32 }
    ensures { result ≡ frame_front (len + 32) ++ ((to_le_bytes w64 source ++ to_le_bytes w64 target) ++ answer_fields command len id) }
{
    let [f0, f1, f2, f3] = (len + 32).to_le_bytes();
    let [s0, s1, s2, s3, s4, s5, s6, s7] = source.to_le_bytes();
    let [t0, t1, t2, t3, t4, t5, t6, t7] = target.to_le_bytes();
    let [c0, c1] = command.to_le_bytes();
    let [l0, l1, l2, l3] = len.to_le_bytes();
    let [i0, i1, i2, i3] = id.to_le_bytes();
    [
        0, 0, f0, f1, f2, f3, s0, s1, s2, s3, s4, s5, s6, s7, t0, t1, t2, t3, t4, t5, t6, t7, c0,
        c1, 5, 0, l0, l1, l2, l3, 0, 0, 0, 0, i0, i1, i2, i3,
    ]
}

// Whether the length of a frame does not fit 32 bits.
#[inline(always)]
fn is_too_long(out: &Octets, start: usize) -> bool
    requires { start ≤ length out.now }
    ensures over { IsTrue result → 4294967295 < length out.now - start }
    ensures fits { result ≡ false → length out.now - start ≤ 4294967295 }
{
    out.len() - start > u32::MAX as usize
}

// Fills in the headers of a frame that is no longer than its number says.
#[inline(always)]
fn fill_headers(h: &Header, error: u32, start: usize, out: &mut Octets)
    requires room { start + 38 ≤ length out.old }
    requires fits { length out.old < start + 2 ^ 32 }
    ensures frame { out.new ≡ take start out.old ++ frame_bytes (response_packet (ams_header_of h.now) error (drop (start + 38) out.old)) }
    ensures len { length out.new ≡ length out.old }
{
    let total = out.len() - start;
    write_at(out, start, &[0, 0]);
    write_at(
        out,
        start + 2,
        &((total - FRAME_HEADER) as u32).to_le_bytes(),
    );
    let mut header = [0; AMS_HEADER];
    put(&answer_of(h, error, (total - HEADERS) as u32), &mut header);
    write_at(out, start + FRAME_HEADER, &header);
}
