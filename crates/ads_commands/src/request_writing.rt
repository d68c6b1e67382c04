//! Requests are written.

ghost use Rattle.std.specs.Prelude.{◌≡◌, ◌≤◌, ◌++◌, length, OnOk, OnErr};
ghost use Rattle.std.specs.Int.{w16, w32, to_le_bytes};
ghost use Rattle.ads_base.specs.Octets.{Extends};
ghost use Rattle.spec_formats.specs.Request.{access_bytes, data_bytes, request_bytes};
ghost use Rattle.ads_commands.specs.Request.{IsWritable, request_meant};

use crate::Request;
use ads_base::{NoMemory, Octets, put16, put32};
use std::alloc::Global;

/// Appends the payload of a request. The reserved bytes of `Add` are zeros.
pub fn put_request(alloc: Global, r: &Request<'_>, out: &mut Octets) -> Result<(), NoMemory>
    requires { IsWritable r.now }
    ensures ok { OnOk result (out.new ≡ out.old ++ request_bytes (request_meant r.now)) }
    ensures no_memory { OnErr result (out.new ≡ out.old) }
{
    let before = out.len();
    let put = append_request(alloc, r, out);
    out.cut_back(before, put)
}

// After an error a part of the payload may stand there.
fn append_request(alloc: Global, r: &Request<'_>, out: &mut Octets) -> Result<(), NoMemory>
    requires { IsWritable r.now }
    ensures ok { OnOk result (out.new ≡ out.old ++ request_bytes (request_meant r.now)) }
    ensures no_memory { OnErr result (Extends out.old out.new) }
{
    match *r {
        Request::DeviceInfo | Request::State => {}
        Request::Read { group, offset, len } => append_access(alloc, out, group, offset, len)?,
        Request::Write {
            group,
            offset,
            bytes,
        } => {
            append_access(alloc, out, group, offset, bytes.len() as u32)?;
            out.put(alloc, bytes)?;
        }
        Request::Control { ads, device, bytes } => {
            put16(alloc, out, ads)?;
            put16(alloc, out, device)?;
            append_data(alloc, out, bytes)?;
        }
        Request::Add {
            group,
            offset,
            len,
            mode,
            delay,
            cycle,
        } => {
            append_access(alloc, out, group, offset, len)?;
            append_access(alloc, out, mode, delay, cycle)?;
            out.put(alloc, &[0; 16])?;
        }
        Request::Delete { handle } => put32(alloc, out, handle)?,
        Request::Note(bytes) => out.put(alloc, bytes)?,
        Request::ReadWrite {
            group,
            offset,
            read_len,
            bytes,
        } => {
            append_access(alloc, out, group, offset, read_len)?;
            append_data(alloc, out, bytes)?;
        }
    }
    Ok(())
}

// Three numbers of 4 bytes: an access, or mode, max delay and cycle time.
fn append_access(
    alloc: Global,
    out: &mut Octets,
    group: u32,
    offset: u32,
    len: u32,
) -> Result<(), NoMemory>
    ensures ok { OnOk result (out.new ≡ out.old ++ access_bytes group offset len) }
    ensures no_memory { OnErr result (Extends out.old out.new) }
{
    put32(alloc, out, group)?;
    put32(alloc, out, offset)?;
    put32(alloc, out, len)?;
    Ok(())
}

// Length 4, data.
pub(crate) fn append_data(alloc: Global, out: &mut Octets, bytes: &[u8]) -> Result<(), NoMemory>
    requires { length bytes.now ≤ 2000000 }
    ensures ok { OnOk result (out.new ≡ out.old ++ data_bytes bytes.now) }
    ensures no_memory { OnErr result (Extends out.old out.new) }
{
    put32(alloc, out, bytes.len() as u32)?;
    out.put(alloc, bytes)?;
    Ok(())
}
