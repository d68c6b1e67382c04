//! One part is run.

ghost use Rattle.std.specs.Prelude.{◌≡◌, ◌≤◌, ◌<◌, ◌+◌, ◌-◌, ◌^◌, ◌++◌, true, length, replicate, OnOk, OnErr};
ghost use Rattle.std.specs.Int.{w32, to_le_bytes};
ghost use Rattle.ads_base.specs.Octets.{Extends};
ghost use Rattle.spec_formats.specs.Request.{Read, Write, ReadWrite, DeleteDeviceNotification};
ghost use Rattle.sum_commands.specs.declared.form.Form.TheVariants as form;
ghost use Rattle.sum_commands.specs.Forms.{head_width, front_width, written_len, part_of};
ghost use Rattle.sum_commands.specs.Packing.{Runs};
ghost use Rattle.sum_commands.specs.Reads.{is_of_reads, read_width, read_front, zeros_of};
ghost use Rattle.sum_commands.specs.Parts.{code_in, handle_in, written_over};
ghost use Rattle.sum_commands.specs.Additions.{is_of_additions, addition_of};
ghost use Rattle.sum_commands.specs.declared.form.Form.{Form};
ghost use Rattle.sum_commands.specs.Served.{StandsForSome};
ghost use Rattle.sum_commands.specs.Stops.{MayStop};

use crate::PartService;
use crate::answers::{addition_number_in, handle_in, number_in};
use crate::form::Form;
use crate::heads::Rest;
use crate::room::{put_zeros, write_at};
use ads_base::{NoMemory, Octets, get32};
use return_codes::Code;
use std::alloc::Global;

// Runs the first part. Its result is written at its place in `out`, and its data appended.
#[inline(always)]
pub(crate) fn run_first<P: PartService>(
    alloc: Global,
    service: &mut P,
    rest: Rest<'_>,
    at: usize,
    out: &mut Octets,
) -> Result<(), NoMemory>
    requires head { head_width rest.form ≤ length rest.heads.now }
    requires written { written_len rest.form rest.heads.now ≤ length rest.written.now }
    requires some { StandsForSome P.stands_for service.old }
    requires room { at + front_width rest.form ≤ length out.old }
    requires small { at + front_width rest.form < 2 ^ 64 }
    ensures ok { OnOk result ((s : P.State) → P.stands_for service.old s
        → Runs P.stands_for P.given P.left rest.entry.form (part_of rest.entry.form rest.entry.heads.now rest.entry.written.now)
        s service.new at out.old out.new) }
    ensures wants { OnErr result ((s : P.State) → P.stands_for service.old s → MayStop P.stands_for P.left P.may_leave
        (part_of rest.entry.form rest.entry.heads.now rest.entry.written.now) s service.new) }
    ensures no_memory { OnErr result (Extends out.old out.new) }
{
    let heads = rest.heads;
    match rest.form {
        Form::Reads | Form::ToldReads | Form::ShortReads => {
            let group = get32(heads, 0);
            let offset = get32(heads, 4);
            let len = get32(heads, 8);
            run_read(alloc, service, rest.form, group, offset, len, at, out)
        }
        Form::Writes => {
            let group = get32(heads, 0);
            let offset = get32(heads, 4);
            let bytes = &rest.written[..get32(heads, 8) as usize];
            run_write(alloc, service, group, offset, bytes, at, out)
        }
        Form::ReadWrites => {
            let group = get32(heads, 0);
            let offset = get32(heads, 4);
            let len = get32(heads, 8);
            let bytes = &rest.written[..get32(heads, 12) as usize];
            run_read_write(alloc, service, group, offset, len, bytes, at, out)
        }
        Form::Additions | Form::ShortAdditions => run_add(alloc, service, heads, at, out),
        Form::Deletions => {
            run_delete(service, get32(heads, 0), at, out);
            Ok(())
        }
    }
}

// A read of any form. `read` is called here alone, so that the compiler puts its code into the loop.
#[inline(always)]
fn run_read<P: PartService>(
    alloc: Global,
    service: &mut P,
    form: Form,
    group: u32,
    offset: u32,
    len: u32,
    at: usize,
    out: &mut Octets,
) -> Result<(), NoMemory>
    requires some { StandsForSome P.stands_for service.old }
    requires reads { is_of_reads form ≡ true }
    requires room { at + read_width form ≤ length out.old }
    ensures ok { OnOk result ((s : P.State) → P.stands_for service.old s
        → Runs P.stands_for P.given P.left form (Read group offset len) s service.new at out.old out.new) }
    ensures wants { OnErr result ((s : P.State) → P.stands_for service.old s
        → MayStop P.stands_for P.left P.may_leave (Read group offset len) s service.new) }
    ensures no_memory { OnErr result (Extends out.old out.new) }
{
    let before = out.len();
    let answer = service.read(alloc, group, offset, len, out)?;
    let given = (out.len() - before) as u32;
    finish_read(alloc, form, len, given, answer, at, out)?;
    Ok(())
}

// Fills what a read gave, where its form fills, and writes its result.
#[inline(always)]
fn finish_read(
    alloc: Global,
    form: Form,
    len: u32,
    given: u32,
    answer: Result<(), Code>,
    at: usize,
    out: &mut Octets,
) -> Result<(), NoMemory>
    requires given { given ≤ len }
    requires room { at + read_width form ≤ length out.old }
    requires small { at + read_width form < 2 ^ 64 }
    ensures ok { OnOk result (out.new
        ≡ written_over at (read_front form (code_in answer) given) (out.old ++ replicate (zeros_of form (len - given)) 0)) }
    ensures no_memory { OnErr result (out.new ≡ out.old) }
{
    match form {
        Form::Reads => {
            put_zeros(alloc, out, len - given)?;
            write_at(out, at, number_in(answer));
        }
        Form::ToldReads => {
            put_zeros(alloc, out, len - given)?;
            tell(out, at, answer, given);
        }
        _ => tell(out, at, answer, given),
    }
    Ok(())
}

fn run_write<P: PartService>(
    alloc: Global,
    service: &mut P,
    group: u32,
    offset: u32,
    bytes: &[u8],
    at: usize,
    out: &mut Octets,
) -> Result<(), NoMemory>
    requires some { StandsForSome P.stands_for service.old }
    requires room { at + 4 ≤ length out.old }
    ensures ok { OnOk result ((s : P.State) → P.stands_for service.old s
        → Runs P.stands_for P.given P.left form.Writes (Write group offset bytes.now) s service.new at out.old out.new) }
    ensures wants { OnErr result ((s : P.State) → P.stands_for service.old s
        → MayStop P.stands_for P.left P.may_leave (Write group offset bytes.now) s service.new) }
    ensures no_memory { OnErr result (Extends out.old out.new) }
{
    let answer = service.write(group, offset, bytes);
    write_at(out, at, number_in(answer));
    Ok(())
}

fn run_read_write<P: PartService>(
    alloc: Global,
    service: &mut P,
    group: u32,
    offset: u32,
    read_len: u32,
    bytes: &[u8],
    at: usize,
    out: &mut Octets,
) -> Result<(), NoMemory>
    requires some { StandsForSome P.stands_for service.old }
    requires room { at + 8 ≤ length out.old }
    ensures ok { OnOk result ((s : P.State) → P.stands_for service.old s
        → Runs P.stands_for P.given P.left form.ReadWrites (ReadWrite group offset read_len bytes.now) s service.new at out.old out.new) }
    ensures wants { OnErr result ((s : P.State) → P.stands_for service.old s
        → MayStop P.stands_for P.left P.may_leave (ReadWrite group offset read_len bytes.now) s service.new) }
    ensures no_memory { OnErr result (Extends out.old out.new) }
{
    let before = out.len();
    let answer = service.read_write(alloc, group, offset, read_len, bytes, out)?;
    let gave = out.len() - before;
    tell(out, at, answer, gave as u32);
    Ok(())
}

// An addition. Its result is written, and behind it the handle, or 0.
#[inline(never)]
fn run_add<P: PartService>(
    alloc: Global,
    service: &mut P,
    head: &[u8],
    at: usize,
    out: &mut Octets,
) -> Result<(), NoMemory>
    requires some { StandsForSome P.stands_for service.old }
    requires head { 24 ≤ length head.now }
    requires room { at + 8 ≤ length out.old }
    requires small { at + 8 < 2 ^ 64 }
    ensures ok { OnOk result ((form : Form) (s : P.State) → is_of_additions form ≡ true → P.stands_for service.old s
        → Runs P.stands_for P.given P.left form (addition_of head.now) s service.new at out.old out.new) }
    ensures wants { OnErr result ((s : P.State) → P.stands_for service.old s
        → MayStop P.stands_for P.left P.may_leave (addition_of head.now) s service.new) }
    ensures no_memory { OnErr result (out.new ≡ out.old) }
{
    let (group, offset, len) = (get32(head, 0), get32(head, 4), get32(head, 8));
    let (mode, delay, cycle) = (get32(head, 12), get32(head, 16), get32(head, 20));
    let answer = service.add(alloc, group, offset, len, mode, delay, cycle)?;
    tell_handle(out, at, answer);
    Ok(())
}

#[inline(never)]
fn run_delete<P: PartService>(service: &mut P, handle: u32, at: usize, out: &mut Octets)
    requires some { StandsForSome P.stands_for service.old }
    requires room { at + 4 ≤ length out.old }
    ensures { (s : P.State) → P.stands_for service.old s
        → Runs P.stands_for P.given P.left form.Deletions (DeleteDeviceNotification handle) s service.new at out.old out.new }
{
    let answer = service.delete(handle);
    write_at(out, at, number_in(answer));
}

// Writes the result of an addition at its place, and behind it the handle.
fn tell_handle(out: &mut Octets, at: usize, answer: Result<u32, Code>)
    requires room { at + 8 ≤ length out.old }
    requires small { at + 8 < 2 ^ 64 }
    ensures written { out.new ≡ written_over at (to_le_bytes w32 (code_in answer) ++ to_le_bytes w32 (handle_in answer)) out.old }
    ensures fits { handle_in answer < 2 ^ 32 }
{
    write_at(out, at, addition_number_in(answer));
    write_at(out, at + 4, handle_in(answer));
}

// Writes a result at its place, and behind it how many bytes were given.
#[inline(always)]
fn tell(out: &mut Octets, at: usize, answer: Result<(), Code>, given: u32)
    requires room { at + 8 ≤ length out.old }
    requires small { at + 8 < 2 ^ 64 }
    ensures { out.new ≡ written_over at (to_le_bytes w32 (code_in answer) ++ to_le_bytes w32 given) out.old }
{
    write_at(out, at, number_in(answer));
    write_at(out, at + 4, given);
}
