//! A single Read of a client at a port: one of a packet, or a part of a sum.

ghost use Rattle.std.specs.Prelude.{◌≡◌, ◌+◌, ◌≤◌, [], length, true, Ok, IfOk, IfSome, OnOk, OnErr};
ghost use Rattle.spec_formats.specs.GroupNumbers.{process_bytes};
ghost use Rattle.spec_formats.specs.Groups.{group_of};
ghost use Rattle.session.specs.HandleGroups as groups;
ghost use Rattle.spec_formats.specs.Request.{Read};
ghost use Rattle.port_device.specs.Answers.{AnswersAct};
ghost use Rattle.session.specs.Asking.{Asking, act_asked, plain_asked, meant_in};
ghost use Rattle.sym_handles.specs.Kept.{Kept};
ghost use Rattle.session.specs.Asks.{Asks, SomeAsks};

use crate::groups::{is_device_data, is_value_by_handle};
use crate::looking::{look, read_value};
use crate::meaning::read_len;
use crate::requests::ReadRequest;
use ads_base::{NoMemory, Octets};
use index_groups::{PROCESS_BYTES, Reach, reach};
use port_device::Port;
use return_codes::Code;
use std::alloc::Global;
use sym_handles::Handles;

/// Appends what Read gives: a value by its handle, or what the port gives of the group. A wide port gives of a value by its
/// handle what it has, where more is asked, and its state words by their group.
/// Beckhoff Information System, "ADS Read".
#[inline(always)]
pub(crate) fn read(
    alloc: Global,
    handles: &Handles,
    port: &Port,
    asked: &ReadRequest,
    out: &mut Octets,
) -> Result<Result<(), Code>, NoMemory>
    requires some { SomeAsks port.now handles.now }
    ensures answer { IfOk result (λ answer. (a : Asking) → Asks a port.now handles.now
        → AnswersAct a.world (act_asked a (Read asked.now.group asked.now.offset asked.now.len)) answer out.old out.new) }
    ensures asked { OnOk result (length out.new ≤ length out.old + asked.now.len) }
    ensures no_memory { OnErr result (out.new ≡ out.old) }
{
    // Most reads are of data, which needs no further look at the group.
    if asked.group == PROCESS_BYTES {
        return read_meant(alloc, handles, port, asked, out);
    }
    if is_device_data(port, asked.group) {
        return port.read_states(alloc, asked.offset, asked.len, out);
    }
    read_meant(alloc, handles, port, asked, out)
}

/// The bytes that a Read gives, where it is one of data or of a value by its handle that is not refused or cut.
#[inline(always)]
pub(crate) fn data_asked<'a>(
    handles: &Handles,
    port: &'a Port,
    asked: &ReadRequest,
) -> Option<&'a [u8]>
    requires some { SomeAsks port.now handles.now }
    ensures { IfSome result (λ bytes. (a : Asking) → Asks a port.now handles.now
        → AnswersAct a.world (act_asked a (Read asked.now.group asked.now.offset asked.now.len)) (Ok tt) [] bytes.now) }
{
    if asked.group == PROCESS_BYTES {
        return data_in(port, asked);
    }
    if is_value_by_handle(asked.group) {
        return value_in(handles, port, asked);
    }
    None
}

// The same of data.
#[inline(always)]
fn data_in<'a>(port: &'a Port, asked: &ReadRequest) -> Option<&'a [u8]>
    requires { asked.now.group ≡ process_bytes }
    ensures { IfSome result (λ bytes. (a : Asking) (kept : Kept) → Asks a port.now kept
        → AnswersAct a.world (act_asked a (Read asked.now.group asked.now.offset asked.now.len)) (Ok tt) [] bytes.now) }
{
    match reach(port.sizes(), PROCESS_BYTES, asked.offset, asked.len) {
        Ok(Reach::Bytes { area, at, len }) => Some(port.lent(area, at, len)),
        _ => None,
    }
}

// The same of a value by its handle, which is the offset.
#[inline(always)]
fn value_in<'a>(handles: &Handles, port: &'a Port, asked: &ReadRequest) -> Option<&'a [u8]>
    requires some { SomeAsks port.now handles.now }
    requires group { groups.is_value_by_handle (group_of asked.now.group) ≡ true }
    ensures { IfSome result (λ bytes. (a : Asking) → Asks a port.now handles.now
        → AnswersAct a.world (act_asked a (Read asked.now.group asked.now.offset asked.now.len)) (Ok tt) [] bytes.now) }
{
    let Ok(place) = look(handles, port.number(), asked.offset) else {
        return None;
    };
    if asked.len > place.len {
        return None;
    }
    Some(port.lent(place.area, place.at, asked.len))
}

// The same of a group that every port has.
#[inline(always)]
fn read_meant(
    alloc: Global,
    handles: &Handles,
    port: &Port,
    asked: &ReadRequest,
    out: &mut Octets,
) -> Result<Result<(), Code>, NoMemory>
    requires some { SomeAsks port.now handles.now }
    ensures answer { IfOk result (λ answer. (a : Asking) → Asks a port.now handles.now
        → AnswersAct a.world (plain_asked a (meant_in a (Read asked.now.group asked.now.offset asked.now.len))) answer out.old out.new) }
    ensures no_memory { OnErr result (out.new ≡ out.old) }
{
    let len = read_len(handles, port, asked);
    let meant = ReadRequest {
        group: asked.group,
        offset: asked.offset,
        len,
    };
    read_plain(alloc, handles, port, &meant, out)
}

// The same of a Read that is taken as it is written.
#[inline(always)]
fn read_plain(
    alloc: Global,
    handles: &Handles,
    port: &Port,
    asked: &ReadRequest,
    out: &mut Octets,
) -> Result<Result<(), Code>, NoMemory>
    requires some { SomeAsks port.now handles.now }
    ensures answer { IfOk result (λ answer. (a : Asking) → Asks a port.now handles.now
        → AnswersAct a.world (plain_asked a (Read asked.now.group asked.now.offset asked.now.len)) answer out.old out.new) }
    ensures no_memory { OnErr result (out.new ≡ out.old) }
{
    if is_value_by_handle(asked.group) {
        return read_value(alloc, handles, port, asked, out);
    }
    port.read(alloc, asked.group, asked.offset, asked.len, out)
}
