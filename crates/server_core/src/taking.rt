//! One connection: its stream is cut into frames, each is answered, and the replies wait to be taken.

ghost use Rattle.std.specs.Prelude.{◌≡◌, ◌<◌, length, IsTrue, IfOk, OnOk, false};
ghost use Rattle.spec_frames.specs.Frame.{IsAmsPacket};
ghost use Rattle.spec_machine.specs.Piece.{after_piece};
ghost use Rattle.ams_tcp.specs.Held.{Held};
ghost use Rattle.out_queue.specs.Open.{IsOpen, tail_of};
ghost use Rattle.connections.specs.Clear.{IsClear};
ghost use Rattle.server_core.specs.Served.{served, ServedExchange};
ghost use Rattle.server_core.specs.Stands.{Stands, Goes, conn_of, outlet_with};
ghost use Rattle.server_core.specs.HoldsWorld.{HoldsWorld, IsConnected};
ghost use Rattle.server_core.specs.Taking.{answered, Takes, Waits, KeepsDevice};

use crate::Summary;
use crate::device::Device;
use ads_base::NoMemory;
use ams_tcp::{Peeked, Splitter};
use out_queue::{OpenQueue, Pushed};
use session::{Session, Told};
use std::alloc::Global;

/// A piece of a connection that is not closing comes in, and all frames that are whole by then are taken. No packet is copied
/// out of its stream, and each reply is written into its queue, which is open.
pub(crate) fn take_fed(
    alloc: Global,
    stream: &mut Splitter,
    session: &mut Session,
    queue: &mut OpenQueue,
    closes: &mut bool,
    device: &mut Device,
    summary: &mut Summary,
    bytes: &[u8],
) -> Result<(), NoMemory>
    requires connected { IsConnected device.old session.old }
    requires queue { IsClear queue.old }
    requires open { closes.old ≡ false }
    ensures goes { OnOk result ((x : ServedExchange) → HoldsWorld device.old x.world
        → Stands x.world.plant (conn_of stream.old session.old queue.old closes.old) x.connection → x.connection.gone ≡ false
        → Goes (conn_of stream.new session.new queue.new closes.new) device.new summary.old summary.new x (after_piece served bytes.now x)) }
    ensures queue { IsClear queue.new }
    ensures device { KeepsDevice device.old device.new }
{
    stream.feed(alloc, bytes)?;
    while take_next(alloc, stream, session, queue, closes, device, summary)? {}
    Ok(())
}

// The next frame is taken; false where no more is to be taken.
fn take_next(
    alloc: Global,
    stream: &mut Splitter,
    session: &mut Session,
    queue: &mut OpenQueue,
    closes: &mut bool,
    device: &mut Device,
    summary: &mut Summary,
) -> Result<bool, NoMemory>
    requires connected { IsConnected device.old session.old }
    requires queue { IsClear queue.old }
    requires open { closes.old ≡ false }
    ensures takes { IfOk result (λ more. (x : ServedExchange) → HoldsWorld device.old x.world
        → Stands x.world.plant (conn_of stream.old session.old queue.old closes.old) x.connection
        → Takes more (conn_of stream.new session.new queue.new closes.new) device.new summary.old summary.new x) }
    ensures open { IfOk result (λ more. IsTrue more → closes.new ≡ false) }
    ensures connected { OnOk result (IsConnected device.new session.new) }
    ensures shorter { IfOk result (λ more. IsTrue more → length stream.new.rest < length stream.old.rest) }
    ensures queue { IsClear queue.new }
    ensures device { KeepsDevice device.old device.new }
{
    match stream.peek() {
        Peeked::Frame(packet) => {
            summary.count_request();
            answer(alloc, session, queue, closes, device, summary, packet)?;
            stream.pass_frame();
            Ok(!*closes)
        }
        Peeked::NotYet => Ok(false),
        Peeked::Broken => {
            *closes = true;
            Ok(false)
        }
    }
}

// A packet that is taken is answered, whatever stream it came from.
fn answer(
    alloc: Global,
    session: &mut Session,
    queue: &mut OpenQueue,
    closes: &mut bool,
    device: &mut Device,
    summary: &mut Summary,
    packet: &[u8],
) -> Result<(), NoMemory>
    requires packet { IsAmsPacket packet.now }
    requires connected { IsConnected device.old session.old }
    requires queue { IsClear queue.old }
    requires open { closes.old ≡ false }
    ensures goes { OnOk result ((stream : Held) (x : ServedExchange) → HoldsWorld device.old x.world
        → Stands x.world.plant (conn_of stream session.old queue.old closes.old) x.connection
        → Goes (conn_of stream session.new queue.new closes.new) device.new summary.old summary.new x (answered packet.now x)) }
    ensures connected { OnOk result (IsConnected device.new session.new) }
    ensures queue { IsClear queue.new }
    ensures device { KeepsDevice device.old device.new }
{
    match session.take_onto(
        alloc,
        &mut device.ports,
        &device.admission,
        device.net,
        packet,
        &mut queue.bytes,
    )? {
        Told::Answer => reply(queue, closes, summary),
        Told::Silent => Ok(()),
        Told::Close => {
            *closes = true;
            Ok(())
        }
    }
}

// A reply that is written behind the others waits there, or does not fit and closes the connection.
fn reply(queue: &mut OpenQueue, closes: &mut bool, summary: &mut Summary) -> Result<(), NoMemory>
    requires queue { IsOpen queue.old }
    requires open { closes.old ≡ false }
    ensures waits { OnOk result (Waits (tail_of queue.old) (outlet_with queue.old closes.old) (outlet_with queue.new closes.new)
        summary.old summary.new) }
    ensures queue { IsClear queue.new }
{
    match queue.admit()? {
        Pushed::Done => summary.count_reply(),
        Pushed::Over => *closes = true,
    }
    Ok(())
}
