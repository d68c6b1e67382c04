//! The checks of a tick.

ghost use Rattle.std.specs.Prelude.{◌≡◌, ◌+◌, ◌<◌, ◌≤◌, length, map, All, Some, IsTrue, IsSomeAnd, IfOk, OnOk};
ghost use Rattle.std.specs.List.Sorted.{IsStrictlyIncreasing};
ghost use Rattle.spec_plant.specs.Named.{port_numbered};
ghost use Rattle.spec_machine.specs.Stamps.{frames_of_samples};
ghost use Rattle.spec_machine.specs.Watches.{is_due};
ghost use Rattle.spec_machine.specs.World.{World};
ghost use Rattle.notify_table.specs.Specs.{watched_meant, new_watch, before_checks};
ghost use Rattle.notify_table.specs.Table.{watch_of_handle, watched_len, due_handles, IsTable};
ghost use Rattle.notify_table.specs.Rounds.{HasNext, next_handle, next_watch};
ghost use Rattle.port_device.specs.Holds.{HoldsPorts};
ghost use Rattle.session.specs.Checks.{bytes_found, IsReadable, AreReadable, IsCheck, AreChecked, samples_found, table_checked};
ghost use Rattle.session.specs.Checks.{IsOpened, IsNextRound};
ghost use Rattle.session.specs.NoteGroups.{no_groups};
ghost use Rattle.session.specs.NoteFrames.{produced_of, IsNoteFrame};

use crate::FrameList;
use crate::notes_groups::NoteGroups;
use crate::tick_bytes::{bit_in, bytes_in, own_in, part_of};
use ads_base::{NetId, NoMemory, Steps};
use index_groups::Reach;
use notify_table::{Handles32, Round, Spec, Watched, Watches};
use port_device::Ports;
use std::alloc::Global;
use std::marker::Brand;
use std::sync::ledger::{Blank, Ledger};

/// Checks all notifications that are due at a moment, by rising handle, and gives the frames of their samples. It costs what is
/// due.
pub(crate) fn check_due(
    alloc: Global,
    watches: &mut Watches,
    ports: &Ports,
    net: NetId,
    now: u64,
) -> Result<FrameList, NoMemory>
    requires { AreReadable ports.now watches.old.watches }
    ensures watches { OnOk result ((w : World) → HoldsPorts w ports.now → watches.new ≡ table_checked now w watches.old) }
    ensures frames { IfOk result (λ frames. (w : World) → HoldsPorts w ports.now
        → map produced_of frames ≡ frames_of_samples net.bytes now (samples_found now w watches.old.watches)) }
    ensures short { IfOk result (All IsNoteFrame) }
{
    // Mostly they are in order.
    match watches.open(alloc, now) {
        Some(round) => check_round(alloc, watches, round, ports, net),
        None => check_listed(alloc, watches, ports, net, now),
    }
}

// Checks in place all that are due, and takes the notifications back.
fn check_round(
    alloc: Global,
    watches: &mut Watches,
    mut round: Round,
    ports: &Ports,
    net: NetId,
) -> Result<FrameList, NoMemory>
    requires readable { AreReadable ports.now round.table.watches }
    requires opened { IsOpened round }
    ensures watches { OnOk result ((w : World) → HoldsPorts w ports.now → watches.new ≡ table_checked round.moment w round.table) }
    ensures frames { IfOk result (λ frames. (w : World) → HoldsPorts w ports.now
        → map produced_of frames ≡ frames_of_samples net.bytes round.moment (samples_found round.moment w round.table.watches)) }
    ensures short { IfOk result (All IsNoteFrame) }
{
    let now = round.moment();
    let mut groups = NoteGroups::new(alloc, round.len());
    check_in_place(alloc, &mut round, ports, &mut groups)?;
    watches.close(round);
    groups.into_frames(alloc, net, now)
}

// Makes all checks of a round.
fn check_in_place(
    alloc: Global,
    round: &mut Round,
    ports: &Ports,
    groups: &mut NoteGroups,
) -> Result<(), NoMemory>
    requires readable { AreReadable ports.now round.old.table.watches }
    requires opened { IsOpened round.old }
    requires none { groups.old ≡ no_groups }
    ensures checked { OnOk result ((w : World) → HoldsPorts w ports.now
        → AreChecked w round.old.moment round.old.handles round.old.table round.new.table groups.new.groups) }
    ensures made { OnOk result (round.new.made ≡ length round.new.handles) }
{
    for _i in 0..round.len() {
        check_next(alloc, round, ports, groups)?;
    }
    Ok(())
}

// Makes the next check. Most notifications watch bytes of an area.
#[inline(always)]
fn check_next(
    alloc: Global,
    round: &mut Round,
    ports: &Ports,
    groups: &mut NoteGroups,
) -> Result<(), NoMemory>
    requires next { HasNext round.old }
    requires due { IsSomeAnd (next_watch round.old) (λ v. IsTrue (is_due round.old.moment v) × IsReadable ports.now v.port v.watched) }
    requires few { groups.old.added < 512 }
    ensures check { OnOk result ((w : World) → HoldsPorts w ports.now
        → IsCheck w round.old.moment (next_handle round.old) round.old.table groups.old.groups round.new.table groups.new.groups) }
    ensures made { IsNextRound round.old round.new }
    ensures added { groups.new.added ≤ groups.old.added + 1 }
{
    let spec = round.spec();
    if let Watched::InArea(Reach::Bytes { area, at, len }) = spec.watched {
        let bytes = bytes_in(ports, spec.port, area, at, len);
        return check_found(alloc, round, &spec, bytes, groups);
    }
    check_small(alloc, round, ports, groups)
}

// The same of a bit or a port's own bytes, apart from the code of the caller.
#[inline(never)]
fn check_small(
    alloc: Global,
    round: &mut Round,
    ports: &Ports,
    groups: &mut NoteGroups,
) -> Result<(), NoMemory>
    requires next { HasNext round.old }
    requires due { IsSomeAnd (next_watch round.old) (λ v. IsTrue (is_due round.old.moment v) × IsReadable ports.now v.port v.watched) }
    requires few { groups.old.added < 512 }
    ensures check { OnOk result ((w : World) → HoldsPorts w ports.now
        → IsCheck w round.old.moment (next_handle round.old) round.old.table groups.old.groups round.new.table groups.new.groups) }
    ensures made { IsNextRound round.old round.new }
    ensures added { groups.new.added ≤ groups.old.added + 1 }
{
    let spec = round.spec();
    match spec.watched {
        Watched::InArea(Reach::Bytes { area, at, len }) => {
            let bytes = bytes_in(ports, spec.port, area, at, len);
            check_found(alloc, round, &spec, bytes, groups)
        }
        Watched::InArea(Reach::Bit { area, at, bit }) => {
            let byte = [bit_in(ports, spec.port, area, at, bit)];
            check_found(alloc, round, &spec, &byte, groups)
        }
        Watched::InArea(Reach::Size { area: _ }) => unreachable!(),
        Watched::Own { first, len } => {
            let own = own_in(ports, spec.port);
            let bytes = part_of(&own, first, len);
            check_found(alloc, round, &spec, bytes, groups)
        }
    }
}

// Makes the next check, of the notification that was added as this, where these are its bytes.
#[inline(always)]
fn check_found(
    alloc: Global,
    round: &mut Round,
    spec: &Spec,
    bytes: &[u8],
    groups: &mut NoteGroups,
) -> Result<(), NoMemory>
    requires next { HasNext round.old }
    requires spec { IsSomeAnd (next_watch round.old) (λ v. new_watch (next_handle round.old) spec.now ≡ before_checks v) }
    requires due { IsSomeAnd (next_watch round.old) (λ v. IsTrue (is_due round.old.moment v)) }
    requires len { length bytes.now ≡ watched_len (watched_meant spec.now.watched) }
    requires short { length bytes.now ≤ 2048 }
    requires few { groups.old.added < 512 }
    ensures check { OnOk result ((w : World) → bytes.now ≡ bytes_found w (port_numbered spec.now.port w.plant.ports) (watched_meant spec.now.watched)
        → IsCheck w round.old.moment (next_handle round.old) round.old.table groups.old.groups round.new.table groups.new.groups) }
    ensures made { IsNextRound round.old round.new }
    ensures added { groups.new.added ≤ groups.old.added + 1 }
{
    let handle = round.handle();
    if round.check(bytes) {
        groups.add(alloc, spec.port, spec.to, handle, bytes)?;
    }
    Ok(())
}

// Checks all that are due by a list of their handles.
#[inline(never)]
fn check_listed(
    alloc: Global,
    watches: &mut Watches,
    ports: &Ports,
    net: NetId,
    now: u64,
) -> Result<FrameList, NoMemory>
    requires { AreReadable ports.now watches.old.watches }
    ensures watches { OnOk result ((w : World) → HoldsPorts w ports.now → watches.new ≡ table_checked now w watches.old) }
    ensures frames { IfOk result (λ frames. (w : World) → HoldsPorts w ports.now
        → map produced_of frames ≡ frames_of_samples net.bytes now (samples_found now w watches.old.watches)) }
    ensures short { IfOk result (All IsNoteFrame) }
{
    let handles = due(alloc, watches, now)?;
    let mut groups = NoteGroups::new(alloc, handles.len());
    check_all(alloc, watches, ports, handles.as_slice(), now, &mut groups)?;
    groups.into_frames(alloc, net, now)
}

// Checks the notifications with these handles, which are those that are due.
fn check_all(
    alloc: Global,
    watches: &mut Watches,
    ports: &Ports,
    handles: &[u32],
    now: u64,
    groups: &mut NoteGroups,
) -> Result<(), NoMemory>
    requires readable { AreReadable ports.now watches.old.watches }
    requires due { handles.now ≡ due_handles now watches.old }
    requires rising { IsStrictlyIncreasing handles.now }
    requires table { IsTable watches.old }
    requires none { groups.old ≡ no_groups }
    ensures { OnOk result ((w : World) → HoldsPorts w ports.now
        → AreChecked w now handles.now watches.old watches.new groups.new.groups) }
{
    for handle in handles {
        check(alloc, watches, ports, *handle, now, groups)?;
    }
    Ok(())
}

// Checks one notification that is due.
fn check(
    alloc: Global,
    watches: &mut Watches,
    ports: &Ports,
    handle: u32,
    now: u64,
    groups: &mut NoteGroups,
) -> Result<(), NoMemory>
    requires due { IsSomeAnd (watch_of_handle handle watches.old)
        (λ v. IsTrue (is_due now v) × IsReadable ports.now v.port v.watched) }
    requires few { groups.old.added < 512 }
    ensures check { OnOk result ((w : World) → HoldsPorts w ports.now
        → IsCheck w now handle watches.old groups.old.groups watches.new groups.new.groups) }
    ensures added { groups.new.added ≤ groups.old.added + 1 }
{
    match watches.spec(handle) {
        Some(spec) => check_spec(alloc, watches, ports, handle, now, &spec, groups),
        None => unreachable!(),
    }
}

// Checks the notification with this handle, which was added as this.
fn check_spec(
    alloc: Global,
    watches: &mut Watches,
    ports: &Ports,
    handle: u32,
    now: u64,
    spec: &Spec,
    groups: &mut NoteGroups,
) -> Result<(), NoMemory>
    requires spec { IsSomeAnd (watch_of_handle handle watches.old) (λ v. new_watch handle spec.now ≡ before_checks v) }
    requires due { IsSomeAnd (watch_of_handle handle watches.old)
        (λ v. IsTrue (is_due now v) × IsReadable ports.now v.port v.watched) }
    requires short { watched_len (watched_meant spec.now.watched) ≤ 2048 }
    requires few { groups.old.added < 512 }
    ensures check { OnOk result ((w : World) → HoldsPorts w ports.now
        → IsCheck w now handle watches.old groups.old.groups watches.new groups.new.groups) }
    ensures added { groups.new.added ≤ groups.old.added + 1 }
{
    match spec.watched {
        Watched::InArea(Reach::Bytes { area, at, len }) => {
            let bytes = bytes_in(ports, spec.port, area, at, len);
            check_bytes(alloc, watches, handle, now, spec, bytes, groups)
        }
        Watched::InArea(Reach::Bit { area, at, bit }) => {
            let byte = [bit_in(ports, spec.port, area, at, bit)];
            check_bytes(alloc, watches, handle, now, spec, &byte, groups)
        }
        Watched::InArea(Reach::Size { area: _ }) => unreachable!(),
        Watched::Own { first, len } => {
            let own = own_in(ports, spec.port);
            let bytes = part_of(&own, first, len);
            check_bytes(alloc, watches, handle, now, spec, bytes, groups)
        }
    }
}

// Checks the notification with this handle, which was added as this, where these are its bytes.
fn check_bytes(
    alloc: Global,
    watches: &mut Watches,
    handle: u32,
    now: u64,
    spec: &Spec,
    bytes: &[u8],
    groups: &mut NoteGroups,
) -> Result<(), NoMemory>
    requires spec { IsSomeAnd (watch_of_handle handle watches.old) (λ v. new_watch handle spec.now ≡ before_checks v) }
    requires due { IsSomeAnd (watch_of_handle handle watches.old) (λ v. IsTrue (is_due now v)) }
    requires len { length bytes.now ≡ watched_len (watched_meant spec.now.watched) }
    requires short { length bytes.now ≤ 2048 }
    requires few { groups.old.added < 512 }
    ensures check { OnOk result ((w : World) → bytes.now ≡ bytes_found w (port_numbered spec.now.port w.plant.ports) (watched_meant spec.now.watched)
        → IsCheck w now handle watches.old groups.old.groups watches.new groups.new.groups) }
    ensures added { groups.new.added ≤ groups.old.added + 1 }
{
    if watches.checked(handle, now, bytes) {
        groups.add(alloc, spec.port, spec.to, handle, bytes)?;
    }
    Ok(())
}

fn due(alloc: Global, watches: &Watches, now: u64) -> Result<Handles32, NoMemory>
    ensures due { IfOk result (λ handles. handles ≡ due_handles now watches.now) }
    ensures rising { IfOk result IsStrictlyIncreasing }
    ensures table { IsTable watches.now }
{
    due_counted::<Brand>(alloc, watches, now, Blank::new(1))
}

// The steps are counted in a ledger that holds nothing.
fn due_counted<L: Ledger>(
    alloc: Global,
    watches: &Watches,
    now: u64,
    blank: Blank,
) -> Result<Handles32, NoMemory>
    requires name { blank.name ≡ L.name }
    requires parts { blank.parts ≡ L.parts }
    requires some { 0 < blank.parts }
    ensures due { IfOk result (λ handles. handles ≡ due_handles now watches.now) }
    ensures rising { IfOk result IsStrictlyIncreasing }
    ensures table { IsTable watches.now }
{
    let mut steps = Steps::<L>::open(blank);
    watches.due(alloc, now, &mut steps)
}
