//! Replies are written.

ghost use Rattle.std.specs.Prelude.{◌≡◌, ◌≤◌, ◌++◌, length, replicate, OnOk, OnErr};
ghost use Rattle.ads_base.specs.Octets.{Extends};
ghost use Rattle.spec_formats.specs.Request.{data_bytes};
ghost use Rattle.spec_formats.specs.Reply.{facts_bytes, refused_len, reply_fields, result_of, written_bytes};
ghost use Rattle.ads_commands.specs.Reply.{IsWritableReply, facts_meant, reply_meant};

use crate::request_writing::append_data;
use crate::{DeviceFacts, Reply};
use ads_base::{NoMemory, Octets, put16, put32};
use std::alloc::Global;

// As many zeros as the longest refused form has.
const ZEROS: [u8; 20] = [0; 20];

/// Appends the payload of a reply. Where the result is not 0 it is written in its refused form: the result, and zeros in
/// place of the fields, or the length 0 in place of data.
pub fn put_reply(alloc: Global, r: &Reply<'_>, out: &mut Octets) -> Result<(), NoMemory>
    requires { IsWritableReply r.now }
    ensures ok { OnOk result (out.new ≡ out.old ++ written_bytes (reply_meant r.now)) }
    ensures no_memory { OnErr result (out.new ≡ out.old) }
{
    let before = out.len();
    let put = append_reply(alloc, r, out);
    out.cut_back(before, put)
}

// After an error a part of the payload may stand there.
fn append_reply(alloc: Global, r: &Reply<'_>, out: &mut Octets) -> Result<(), NoMemory>
    requires { IsWritableReply r.now }
    ensures ok { OnOk result (out.new ≡ out.old ++ written_bytes (reply_meant r.now)) }
    ensures no_memory { OnErr result (Extends out.old out.new) }
{
    let result_code = result_in(r);
    put32(alloc, out, result_code)?;
    if result_code == 0 {
        append_fields(alloc, r, out)?;
    } else {
        append_zeros(alloc, out, zeros_in(r))?;
    }
    Ok(())
}

fn result_in(r: &Reply<'_>) -> u32
    ensures { result ≡ result_of (reply_meant r.now) }
{
    match *r {
        Reply::Info(number, _) | Reply::Read(number, _) | Reply::ReadWrite(number, _) => number,
        Reply::State(number, _, _) | Reply::Add(number, _) => number,
        Reply::Write(number) | Reply::Control(number) | Reply::Delete(number) => number,
    }
}

// How many zeros stand behind the result of the refused form.
fn zeros_in(r: &Reply<'_>) -> usize
    ensures number { result ≡ refused_len (reply_meant r.now) }
    ensures bound { result ≤ 20 }
{
    match *r {
        Reply::Info(_, _) => 20,
        Reply::Write(_) | Reply::Control(_) | Reply::Delete(_) => 0,
        Reply::Read(_, _) | Reply::State(_, _, _) | Reply::Add(_, _) | Reply::ReadWrite(_, _) => 4,
    }
}

fn append_zeros(alloc: Global, out: &mut Octets, n: usize) -> Result<(), NoMemory>
    requires { n ≤ 20 }
    ensures ok { OnOk result (out.new ≡ out.old ++ replicate n 0) }
    ensures no_memory { OnErr result (out.new ≡ out.old) }
{
    out.put(alloc, &ZEROS[..n])?;
    Ok(())
}

// After an error a part of the fields may stand there.
fn append_fields(alloc: Global, r: &Reply<'_>, out: &mut Octets) -> Result<(), NoMemory>
    requires { IsWritableReply r.now }
    ensures ok { OnOk result (out.new ≡ out.old ++ reply_fields (reply_meant r.now)) }
    ensures no_memory { OnErr result (Extends out.old out.new) }
{
    match *r {
        Reply::Info(_, facts) => append_facts(alloc, out, &facts)?,
        Reply::Read(_, bytes) => append_data(alloc, out, bytes)?,
        Reply::State(_, ads, device) => {
            put16(alloc, out, ads)?;
            put16(alloc, out, device)?;
        }
        Reply::Add(_, handle) => put32(alloc, out, handle)?,
        Reply::ReadWrite(_, bytes) => append_data(alloc, out, bytes)?,
        Reply::Write(_) | Reply::Control(_) | Reply::Delete(_) => {}
    }
    Ok(())
}

// Major 1, minor 1, build 2, name 16.
fn append_facts(alloc: Global, out: &mut Octets, facts: &DeviceFacts) -> Result<(), NoMemory>
    ensures ok { OnOk result (out.new ≡ out.old ++ facts_bytes (facts_meant facts.now)) }
    ensures no_memory { OnErr result (Extends out.old out.new) }
{
    out.put(alloc, &[facts.major, facts.minor])?;
    put16(alloc, out, facts.build)?;
    out.put(alloc, &facts.name)?;
    Ok(())
}
