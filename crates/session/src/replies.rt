//! The payloads of replies that have data: Read and ReadWrite.

ghost use Rattle.std.specs.Prelude.{◌≡◌, ◌≤◌, ◌+◌, ◌-◌, ◌++◌, length, take, drop, OnOk, OnErr};
ghost use Rattle.std.specs.Int.{w32, to_le_bytes};
ghost use Rattle.ads_base.specs.Octets.{Extends};
ghost use Rattle.spec_formats.specs.Request.{Read, ReadWrite};
ghost use Rattle.spec_machine.specs.Answers.{READ, READ_WRITE};
ghost use Rattle.spec_machine.specs.Replies.{reply_payload};
ghost use Rattle.session.specs.Asking.{Asking, outcome_asked, asking_after};
ghost use Rattle.session.specs.Asks.{Asks, SomeAsks};

use crate::requests::{ReadRequest, ReadWriteRequest};
use crate::room::{put_room, write_at};
use crate::{granting, reading};
use ads_base::{NoMemory, Octets};
use port_device::Port;
use std::alloc::Global;
pub(crate) use sum_commands::number_in;
use sym_handles::Handles;

/// Bytes in front of the data of a reply to Read or ReadWrite: result 4, length 4.
pub(crate) const FRONT: usize = 8;

/// Fills in the result and the length in front of the data that stands behind them.
#[inline(always)]
pub(crate) fn fill_front(out: &mut Octets, start: usize, number: u32)
    requires there { start + 8 ≤ length out.old }
    requires short { length out.old ≤ start + 8 + 4294967295 }
    ensures { out.new ≡ take start out.old ++ (to_le_bytes w32 number
        ++ (to_le_bytes w32 (length out.old - (start + 8)) ++ drop (start + 8) out.old)) }
{
    let len = (out.len() - (start + FRONT)) as u32;
    write_at(out, start, &number.to_le_bytes());
    write_at(out, start + 4, &len.to_le_bytes());
}

/// Appends the payload of the reply to a Read: result 4, length 4, data.
pub(crate) fn read_reply(
    alloc: Global,
    handles: &Handles,
    port: &Port,
    asked: ReadRequest,
    out: &mut Octets,
) -> Result<(), NoMemory>
    requires some { SomeAsks port.now handles.now }
    ensures reply { OnOk result ((a : Asking) → Asks a port.now handles.now
        → out.new ≡ out.old ++ reply_payload READ (outcome_asked a (Read asked.group asked.offset asked.len))) }
    ensures no_memory { OnErr result (Extends out.old out.new) }
{
    let start = out.len();
    put_room(alloc, out, FRONT)?;
    let answer = reading::read(alloc, handles, port, &asked, out)?;
    fill_front(out, start, number_in(answer));
    Ok(())
}

/// Appends the payload of the reply to a ReadWrite: result 4, length 4, data.
pub(crate) fn read_write_reply(
    alloc: Global,
    handles: &mut Handles,
    port: &Port,
    asked: ReadWriteRequest<'_>,
    out: &mut Octets,
) -> Result<(), NoMemory>
    requires some { SomeAsks port.now handles.old }
    ensures reply { OnOk result ((a : Asking) → Asks a port.now handles.old
        → out.new ≡ out.old ++ reply_payload READ_WRITE
        (outcome_asked a (ReadWrite asked.entry.group asked.entry.offset asked.entry.len asked.entry.bytes.now))) }
    ensures leaves { OnOk result ((a : Asking) → Asks a port.now handles.old
        → Asks (asking_after a (ReadWrite asked.entry.group asked.entry.offset asked.entry.len asked.entry.bytes.now)) port.now handles.new) }
    ensures no_memory { OnErr result (Extends out.old out.new) }
{
    let start = out.len();
    put_room(alloc, out, FRONT)?;
    let answer = granting::read_write(alloc, handles, port, &asked, out)?;
    fill_front(out, start, number_in(answer));
    Ok(())
}
