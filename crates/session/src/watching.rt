//! A notification is added or deleted: by one request of a packet, or by a part of a sum.
//! Beckhoff Information System, "ADS Add Device Notification", "ADS Delete Device Notification".

ghost use Rattle.std.specs.Prelude.{◌≡◌, ◌≤◌, ℕ, List, Some, option_map, IfOk, OnErr};
ghost use Rattle.spec_formats.specs.Groups.{group_of};
ghost use Rattle.spec_formats.specs.Request.{AddDeviceNotification, DeleteDeviceNotification};
ghost use Rattle.spec_machine.specs.Answers.{answered_group, ADD_DEVICE_NOTIFICATION};
ghost use Rattle.spec_machine.specs.Acts.{Act};
ghost use Rattle.spec_machine.specs.Handles.{kept_status};
ghost use Rattle.spec_machine.specs.Reach.{reach_of, addressed_by_status};
ghost use Rattle.spec_machine.specs.Meanings.{mode_in};
ghost use Rattle.spec_machine.specs.Manner.{Wide};
ghost use Rattle.spec_machine.specs.MoreActs.{states_reach, version_reach};
ghost use Rattle.spec_plant.specs.World.{PlantPort};
ghost use Rattle.spec_plant.specs.Named.{port_numbered};
ghost use Rattle.spec_machine.specs.Requests.{mode_of};
ghost use Rattle.notify_table.specs.Specs.{address_of, mode_meant, watched_meant};
ghost use Rattle.notify_table.specs.Table.{watched_len, CanBeWatched};
ghost use Rattle.port_device.specs.PortMemory.{PortMemory};
ghost use Rattle.session.specs.Asking.{Asking, act_asked};
ghost use Rattle.session.specs.Asks.{Asks, SomeAsks};
ghost use Rattle.session.specs.Watching.{is_byte_or_bit, addition_reach, IsWatched, IsSpecAsked, AsksFor, NotesFor, AddsAs, DeletesAs};

use crate::asker::Asker;
use crate::groups::{DEVICE_DATA, is_value_by_handle};
use crate::looking::look;
use crate::meaning::meant_mode;
use crate::requests::NoteRequest;
use ads_base::NoMemory;
use index_groups::{Group, Reach, SYMBOL_VERSION, reach};
use notify_table::{Mode, Spec, WatchFull, Watched, Watches};
use port_device::{Port, states_range};
use return_codes::Code;
use std::alloc::Global;
use sym_handles::Handles;

// The most bytes that a notification watches.
const MOST_BYTES: u32 = 2048;

/// Adds a notification of a port for an address, and gives its handle.
///
/// | refused by | where |
/// |---|---|
/// | 0x713 | the mode is neither 3 nor 4; at a wide port, nor 5 nor 6, which are taken for them |
/// | 0x717 | more than 2,048 bytes are to be watched |
/// | 0x702 | the group names neither bytes, a bit nor a value by handle; at a wide port, nor its state words nor its version |
/// | 0x703, or the code of the handle | the offset lies outside, or the handle is not live |
/// | 0x705 | the length is 0, or what is to be watched ends outside |
/// | 0x716 | no further notification can be added |
pub(crate) fn add(
    alloc: Global,
    handles: &Handles,
    watches: &mut Watches,
    port: &Port,
    asker: Asker,
    asked: &NoteRequest,
) -> Result<Result<u32, Code>, NoMemory>
    requires some { SomeAsks port.now handles.now }
    ensures adds { IfOk result (λ answer. (a : Asking) (delay : ℕ) → Asks a port.now handles.now
        → NotesFor a.world.plant.ports a.client watches.old → a.asker.address ≡ address_of asker.source
        → AddsAs a (act_asked a (AddDeviceNotification asked.now.group asked.now.offset asked.now.len asked.now.mode delay asked.now.cycle))
        answer watches.new) }
    ensures no_memory { OnErr result (watches.new ≡ watches.old) }
{
    match spec_asked(handles, port, asker, asked) {
        Ok(spec) => add_spec(alloc, watches, spec),
        Err(code) => Ok(Err(code)),
    }
}

/// Deletes a notification of a port. 0x714 where no live one of this port has the handle.
pub(crate) fn delete(watches: &mut Watches, ams_port: u16, handle: u32) -> Result<(), Code>
    ensures { (a : Asking) → NotesFor a.world.plant.ports a.client watches.old → ams_port ≡ a.asker.port.number
        → DeletesAs a (act_asked a (DeleteDeviceNotification handle)) result watches.new }
{
    watches.delete(handle, ams_port)
}

// The notification that is asked for, or the code that refuses it before the limits are looked at.
fn spec_asked(
    handles: &Handles,
    port: &Port,
    asker: Asker,
    asked: &NoteRequest,
) -> Result<Spec, Code>
    requires some { SomeAsks port.now handles.now }
    ensures asked { (a : Asking) (delay : ℕ) → Asks a port.now handles.now → a.asker.address ≡ address_of asker.source
        → IsSpecAsked a (act_asked a (AddDeviceNotification asked.now.group asked.now.offset asked.now.len asked.now.mode delay asked.now.cycle))
        result }
    ensures watchable { IfOk result (λ spec. CanBeWatched (watched_meant spec.watched)) }
{
    match mode_named(meant_mode(port, asked.mode)) {
        Some(mode) => spec_with_mode(handles, port, asker, asked, mode),
        None => Err(Code::C713),
    }
}

fn spec_with_mode(
    handles: &Handles,
    port: &Port,
    asker: Asker,
    asked: &NoteRequest,
    mode: Mode,
) -> Result<Spec, Code>
    requires some { SomeAsks port.now handles.now }
    requires mode { Some (mode_meant mode) ≡ mode_of (mode_in port.now.manner asked.now.mode) }
    ensures asked { (a : Asking) (delay : ℕ) → Asks a port.now handles.now → a.asker.address ≡ address_of asker.source
        → IsSpecAsked a (act_asked a (AddDeviceNotification asked.now.group asked.now.offset asked.now.len asked.now.mode delay asked.now.cycle))
        result }
    ensures watchable { IfOk result (λ spec. CanBeWatched (watched_meant spec.watched)) }
{
    if asked.len > MOST_BYTES {
        return Err(Code::C717);
    }
    match watched(handles, port, asked) {
        Ok(watched) => {
            if asked.len == 0 {
                return Err(Code::C705);
            }
            Ok(Spec {
                port: port.number(),
                to: asker.source,
                watched,
                mode,
                cycle: asked.cycle,
            })
        }
        Err(code) => Err(code),
    }
}

// Adds it; 0x716 where no further one can be added.
fn add_spec(alloc: Global, watches: &mut Watches, spec: Spec) -> Result<Result<u32, Code>, NoMemory>
    requires { CanBeWatched (watched_meant spec.watched) }
    ensures adds { IfOk result (λ answer. (a : Asking) (act : Act) → NotesFor a.world.plant.ports a.client watches.old → AsksFor a act spec
        → AddsAs a act answer watches.new) }
    ensures no_memory { OnErr result (watches.new ≡ watches.old) }
{
    match watches.add(alloc, spec)? {
        Ok(handle) => Ok(Ok(handle)),
        Err(WatchFull) => Ok(Err(Code::C716)),
    }
}

fn mode_named(mode: u32) -> Option<Mode>
    ensures { option_map mode_meant result ≡ mode_of mode }
{
    match mode {
        3 => Some(Mode::Cycle),
        4 => Some(Mode::Change),
        _ => None,
    }
}

// What a notification is to watch, or the code that refuses it.
fn watched(handles: &Handles, port: &Port, asked: &NoteRequest) -> Result<Watched, Code>
    requires some { SomeAsks port.now handles.now }
    ensures watched { (a : Asking) → Asks a port.now handles.now
        → IsWatched a.world.plant.ports a.asker.port.number asked.now.len
        (addition_reach a.world.profile.manner a.client a.asker.port asked.now.group asked.now.offset asked.now.len) result }
    ensures len { IfOk result (λ watched. watched_len (watched_meant watched) ≡ asked.now.len) }
{
    if !port.is_wide() {
        return watched_plain(handles, port, asked);
    }
    watched_wide(handles, port, asked)
}

// The same of a wide port, whose own bytes may be watched too.
fn watched_wide(handles: &Handles, port: &Port, asked: &NoteRequest) -> Result<Watched, Code>
    requires some { SomeAsks port.now handles.now }
    ensures watched { (a : Asking) → Asks a port.now handles.now
        → IsWatched a.world.plant.ports a.asker.port.number asked.now.len
        (addition_reach Wide a.client a.asker.port asked.now.group asked.now.offset asked.now.len) result }
    ensures len { IfOk result (λ watched. watched_len (watched_meant watched) ≡ asked.now.len) }
{
    if asked.group == DEVICE_DATA {
        return watched_states(asked.offset, asked.len);
    }
    if asked.group == SYMBOL_VERSION {
        return watched_version(asked.len);
    }
    watched_plain(handles, port, asked)
}

// So many bytes of the state words.
fn watched_states(offset: u32, len: u32) -> Result<Watched, Code>
    ensures watched { (ports : List PlantPort) (p : PlantPort) → port_numbered p.number ports ≡ Some p
        → IsWatched ports p.number len (states_reach p.number offset len) result }
    ensures len { IfOk result (λ watched. watched_len (watched_meant watched) ≡ len) }
{
    match states_range(offset, len) {
        Ok(()) => Ok(Watched::Own {
            first: offset as u8,
            len: len as u8,
        }),
        Err(code) => Err(code),
    }
}

// The version.
fn watched_version(len: u32) -> Result<Watched, Code>
    ensures watched { (ports : List PlantPort) (p : PlantPort) → port_numbered p.number ports ≡ Some p
        → IsWatched ports p.number len (version_reach p.number len) result }
    ensures len { IfOk result (λ watched. watched_len (watched_meant watched) ≡ len) }
{
    if len == 1 {
        return Ok(Watched::Own { first: 4, len: 1 });
    }
    Err(Code::C705)
}

// The same of the groups that every port has.
fn watched_plain(handles: &Handles, port: &Port, asked: &NoteRequest) -> Result<Watched, Code>
    requires some { SomeAsks port.now handles.now }
    ensures watched { (a : Asking) → Asks a port.now handles.now
        → IsWatched a.world.plant.ports a.asker.port.number asked.now.len
        (reach_of a.client a.asker.port (answered_group ADD_DEVICE_NOTIFICATION asked.now.group) asked.now.offset asked.now.len) result }
    ensures len { IfOk result (λ watched. watched_len (watched_meant watched) ≡ asked.now.len) }
{
    if is_value_by_handle(asked.group) {
        return watched_by_handle(handles, port.number(), asked.offset, asked.len);
    }
    if !is_bytes_or_bit(asked.group) {
        return Err(Code::C702);
    }
    match reach(port.sizes(), asked.group, asked.offset, asked.len) {
        Ok(range) => Ok(Watched::InArea(range)),
        Err(code) => Err(code),
    }
}

// The first bytes of a value by its handle.
fn watched_by_handle(
    handles: &Handles,
    ams_port: u16,
    handle: u32,
    len: u32,
) -> Result<Watched, Code>
    ensures watched { (a : Asking) (port : PortMemory) → ams_port ≡ port.number → Asks a port handles.now
        → IsWatched a.world.plant.ports a.asker.port.number len
        (addressed_by_status a.asker.port.number (kept_status a.client.handles handle a.asker.port.number) len) result }
    ensures len { IfOk result (λ watched. watched_len (watched_meant watched) ≡ len) }
{
    match look(handles, ams_port, handle) {
        Ok(place) => {
            if len > place.len {
                return Err(Code::C705);
            }
            Ok(Watched::InArea(Reach::Bytes {
                area: place.area,
                at: place.at,
                len,
            }))
        }
        Err(code) => Err(code),
    }
}

fn is_bytes_or_bit(group: u32) -> bool
    ensures { result ≡ is_byte_or_bit (group_of group) }
{
    match Group::of(group) {
        Some(Group::Bytes(_)) | Some(Group::Bit(_)) => true,
        _ => false,
    }
}
