//! What requests of clients mean to a wide port: a length by handle or by name is the size of a buffer, a name ends at its
//! first NUL and may have a full stop in front, and a notification in the context of a task is one of the server's ticks.

ghost use Rattle.std.specs.Prelude.{◌≡◌, ◌==◌, position};
ghost use Rattle.spec_machine.specs.Answers.{answered_group, READ, READ_WRITE};
ghost use Rattle.spec_machine.specs.Meanings as machine;
ghost use Rattle.port_device.specs.PortMemory.{PortMemory};
ghost use Rattle.sym_handles.specs.Kept.{Kept};
ghost use Rattle.session.specs.Asking.{Asking};
ghost use Rattle.session.specs.Asks.{Asks};

use crate::groups::{is_value_by_handle, is_value_by_name, takes_name};
use crate::looking::look;
use crate::requests::ReadRequest;
use port_device::Port;
use sym_handles::Handles;

/// How many bytes a Read asks for: of a wide port by a live handle no more than its value has.
#[inline(always)]
pub(crate) fn read_len(handles: &Handles, port: &Port, asked: &ReadRequest) -> u32
    ensures { (a : Asking) → Asks a port.now handles.now
        → result ≡ machine.read_len_in a.world.profile.manner a.client a.asker.port (answered_group READ asked.now.group) asked.now.offset asked.now.len }
{
    if !port.is_wide() {
        return asked.len;
    }
    held_len(handles, port.number(), asked)
}

// The same of a wide port.
fn held_len(handles: &Handles, ams_port: u16, asked: &ReadRequest) -> u32
    ensures { (a : Asking) (port : PortMemory) → ams_port ≡ port.number → Asks a port handles.now
        → result ≡ machine.len_by_handle a.client a.asker.port (answered_group READ asked.now.group) asked.now.offset asked.now.len }
{
    if !is_value_by_handle(asked.group) {
        return asked.len;
    }
    match look(handles, ams_port, asked.offset) {
        Ok(place) => asked.len.min(place.len),
        Err(_code) => asked.len,
    }
}

/// How many bytes a ReadWrite with a name asks for of a wide port: of a value no more than it has.
pub(crate) fn value_len(port: &Port, group: u32, len: u32, name: &[u8]) -> u32
    ensures { (a : Asking) (kept : Kept) → Asks a port.now kept
        → result ≡ machine.len_by_name a.asker.port (answered_group READ_WRITE group) name.now len }
{
    if !is_value_by_name(group) {
        return len;
    }
    match port.place(name) {
        Ok(place) => len.min(place.len),
        Err(_code) => len,
    }
}

/// The name that the data of a ReadWrite of a wide port is, or the data of a group that takes none.
pub(crate) fn name_meant(group: u32, bytes: &[u8]) -> &[u8]
    ensures { result.now ≡ machine.name_by_group (answered_group READ_WRITE group) bytes.now }
{
    if !takes_name(group) {
        return bytes;
    }
    behind_stop(up_to_nul(bytes))
}

/// A name up to its first NUL.
pub(crate) fn up_to_nul(name: &[u8]) -> &[u8]
    ensures { result.now ≡ machine.up_to_nul name.now }
{
    match first_nul(name) {
        Some(end) => &name[..end],
        None => name,
    }
}

fn first_nul(name: &[u8]) -> Option<usize>
    ensures { result ≡ position (λ c. c == 0) name.now }
{
    name.iter().position(|c| *c == 0)
}

// A name behind one full stop in front.
fn behind_stop(name: &[u8]) -> &[u8]
    ensures { result.now ≡ machine.behind_stop name.now }
{
    if name.is_empty() {
        return name;
    }
    if name[0] != b'.' {
        return name;
    }
    &name[1..]
}

/// The number of a mode: a wide port takes those in the context of a task for those without.
#[inline(always)]
pub(crate) fn meant_mode(port: &Port, mode: u32) -> u32
    ensures { result ≡ machine.mode_in port.now.manner mode }
{
    if !port.is_wide() {
        return mode;
    }
    without_context(mode)
}

fn without_context(mode: u32) -> u32
    ensures { result ≡ machine.without_context mode }
{
    if mode == 5 {
        return 3;
    }
    if mode == 6 {
        return 4;
    }
    mode
}
