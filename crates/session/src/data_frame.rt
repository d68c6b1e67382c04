//! The frame of an answer to a Read that gives data.

ghost use Rattle.std.specs.Prelude.{◌≡◌, ◌≤◌, ◌<◌, ◌+◌, ◌^◌, ◌++◌, length, Some, OnOk, OnErr};
ghost use Rattle.std.specs.Int.{w32, to_le_bytes};
ghost use Rattle.ads_base.specs.Octets.{Extends};
ghost use Rattle.spec_formats.specs.Codes.{no_error};
ghost use Rattle.spec_formats.specs.Header.{AmsHeader, header_of};
ghost use Rattle.spec_frames.specs.Frame.{frame_bytes};
ghost use Rattle.spec_machine.specs.Replies.{response_packet};
ghost use Rattle.session.specs.Answered.{AppendsFrame};
ghost use Rattle.session.specs.Plain.{data_payload};

use crate::framing::{headers_for, put_answer};
use crate::replies::FRONT;
use crate::room::HEADERS;
use ads_base::{NoMemory, Octets, get32, put32};
use std::alloc::Global;

/// Appends the frame of the answer to a packet whose Read gives these bytes: result 0, length 4, data. Where its length does
/// not fit 32 bits it finds no memory.
#[inline(never)]
pub(crate) fn put_data_frame(
    alloc: Global,
    ams: &[u8],
    bytes: &[u8],
    out: &mut Octets,
) -> Result<(), NoMemory>
    requires long { 32 ≤ length ams.now }
    ensures frame { OnOk result ((h : AmsHeader) → header_of ams.now ≡ Some h
        → out.new ≡ out.old ++ frame_bytes (response_packet h no_error (data_payload no_error bytes.now))) }
    ensures appends { OnOk result (AppendsFrame out.old out.new) }
    ensures no_memory { OnErr result (out.new ≡ out.old) }
{
    // Most fields have four bytes: such a frame is moved in a few steps and with no call.
    if bytes.len() == 4 {
        return put_answer(alloc, ams, &field_payload(get32(bytes, 0)), out);
    }
    put_long_frame(alloc, ams, bytes, out)
}

// The payload that has a field of four bytes, which are a number.
#[inline(always)]
fn field_payload(field: u32) -> [u8; 12]
    ensures { result ≡ data_payload no_error (to_le_bytes w32 field) }
{
    let [a, b, c, d] = field.to_le_bytes();
    [0, 0, 0, 0, 4, 0, 0, 0, a, b, c, d]
}

// The same for bytes of any length.
#[inline(never)]
fn put_long_frame(alloc: Global, ams: &[u8], bytes: &[u8], out: &mut Octets) -> Result<(), NoMemory>
    requires long { 32 ≤ length ams.now }
    ensures frame { OnOk result ((h : AmsHeader) → header_of ams.now ≡ Some h
        → out.new ≡ out.old ++ frame_bytes (response_packet h no_error (data_payload no_error bytes.now))) }
    ensures appends { OnOk result (AppendsFrame out.old out.new) }
    ensures no_memory { OnErr result (out.new ≡ out.old) }
{
    if bytes.len() >= u32::MAX as usize - HEADERS - FRONT {
        return Err(NoMemory);
    }
    let before = out.len();
    let put = append_parts(alloc, ams, bytes, out);
    out.cut_back(before, put)
}

// After an error a part of the frame may stand there.
fn append_parts(alloc: Global, ams: &[u8], bytes: &[u8], out: &mut Octets) -> Result<(), NoMemory>
    requires long { 32 ≤ length ams.now }
    requires short { length bytes.now + 46 < 2 ^ 32 }
    ensures frame { OnOk result ((h : AmsHeader) → header_of ams.now ≡ Some h
        → out.new ≡ out.old ++ frame_bytes (response_packet h no_error (data_payload no_error bytes.now))) }
    ensures appends { OnOk result (AppendsFrame out.old out.new) }
    ensures no_memory { OnErr result (Extends out.old out.new) }
{
    let len = bytes.len() as u32;
    out.put_array(alloc, &headers_for(ams, len + FRONT as u32))?;
    put32(alloc, out, 0)?;
    put32(alloc, out, len)?;
    out.put(alloc, bytes)
}
