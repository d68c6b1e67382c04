//! Plain packets are answered, each by a frame that is written whole.

ghost use Rattle.std.specs.Prelude.{◌≡◌, ◌≤◌, ◌+◌, ◌++◌, length, Some, OnOk, OnErr};
ghost use Rattle.std.specs.Int.{w16, w32, to_le_bytes};
ghost use Rattle.spec_formats.specs.Header.{AmsHeader, header_of, payload_of};
ghost use Rattle.ams_header.specs.Header.{ams_header_of};
ghost use Rattle.port_device.specs.Endings.{KeepsDescription};
ghost use Rattle.session.specs.Answered.{AppendsFrame};
ghost use Rattle.session.specs.Asking.{Asking};
ghost use Rattle.session.specs.Asks.{SomeAsks};
ghost use Rattle.session.specs.Plain.{plain_len, plain_meant, read_meant, write_meant};
ghost use Rattle.type_layout.specs.Descriptions.{rights_of};

use crate::asker::Asker;
use crate::data_frame::put_data_frame;
use crate::framing::{framed, put_answer};
use crate::plain::{Plain, PlainPacket, payload_in};
use crate::reading::data_asked;
use crate::replies::{number_in, read_reply};
use crate::requests::{ReadRequest, WriteRequest};
use crate::room::{HEADERS, put_room};
use crate::{Session, writing};
use ads_base::{NoMemory, Octets, get32};
use ams_header::header_in;
use port_device::Port;
use std::alloc::Global;
use type_layout::Rights;

impl Session {
    ghost use Rattle.session.specs.Runs.{AsksSession, IsFrom};
    ghost use Rattle.session.specs.Plain.{RunsWhole};

    /// Answers a plain packet at its port: appends the frame of the answer.
    /// Beckhoff Information System, "ADS Commands".
    #[inline(always)]
    pub(crate) fn answer_plain(
        &mut self,
        alloc: Global,
        port: &mut Port,
        packet: PlainPacket,
        ams: &[u8],
        out: &mut Octets,
    ) -> Result<(), NoMemory>
        requires some { SomeAsks port.old self.old.handles }
        requires header { header_of ams.now ≡ Some (ams_header_of packet.h) }
        requires long { 32 + plain_len packet.kind ≤ length ams.now }
        ensures whole { OnOk result ((a : Asking) → AsksSession a port.old self.old → IsFrom a packet.h.source packet.rights
            → RunsWhole a (ams_header_of packet.h) (plain_meant packet.kind (payload_of ams.now)) out.old out.new port.new self.new) }
        ensures appends { OnOk result (AppendsFrame out.old out.new) }
        ensures no_memory { OnErr result (out.new ≡ out.old) }
        ensures keeps { KeepsDescription port.old port.new }
        ensures stream { self.new.stream ≡ self.old.stream }
    {
        match packet.kind {
            Plain::Read => self.read_whole(alloc, port, ams, out),
            Plain::Write => self.write_whole(alloc, port, packet.rights, ams, out),
            Plain::State => self.state_whole(alloc, port, ams, out),
        }
    }

    // Data are known before the frame is begun.
    #[inline(always)]
    fn read_whole(
        &self,
        alloc: Global,
        port: &Port,
        ams: &[u8],
        out: &mut Octets,
    ) -> Result<(), NoMemory>
        requires some { SomeAsks port.now self.now.handles }
        requires long { 44 ≤ length ams.now }
        ensures whole { OnOk result ((a : Asking) (h : AmsHeader) → header_of ams.now ≡ Some h → AsksSession a port.now self.now
            → RunsWhole a h (plain_meant Plain.Read (payload_of ams.now)) out.old out.new port.now self.now) }
        ensures appends { OnOk result (AppendsFrame out.old out.new) }
        ensures no_memory { OnErr result (out.new ≡ out.old) }
    {
        match data_asked(&self.handles, port, &read_in(payload_in(ams))) {
            Some(bytes) => put_data_frame(alloc, ams, bytes, out),
            None => self.read_behind(alloc, port, ams, out),
        }
    }

    // The others are apart, so that what one needs is at hand.
    #[inline(never)]
    fn read_behind(
        &self,
        alloc: Global,
        port: &Port,
        ams: &[u8],
        out: &mut Octets,
    ) -> Result<(), NoMemory>
        requires some { SomeAsks port.now self.now.handles }
        requires long { 44 ≤ length ams.now }
        ensures whole { OnOk result ((a : Asking) (h : AmsHeader) → header_of ams.now ≡ Some h → AsksSession a port.now self.now
            → RunsWhole a h (plain_meant Plain.Read (payload_of ams.now)) out.old out.new port.now self.now) }
        ensures appends { OnOk result (AppendsFrame out.old out.new) }
        ensures no_memory { OnErr result (out.new ≡ out.old) }
    {
        let h = header_in(ams);
        let asked = read_in(payload_in(ams));
        let start = out.len();
        put_room(alloc, out, HEADERS)?;
        match read_reply(alloc, &self.handles, port, asked, out) {
            Ok(()) => framed(&h, 0, start, out),
            Err(no_memory) => {
                out.cut(start);
                Err(no_memory)
            }
        }
    }

    #[inline(never)]
    fn write_whole(
        &mut self,
        alloc: Global,
        port: &mut Port,
        rights: Rights,
        ams: &[u8],
        out: &mut Octets,
    ) -> Result<(), NoMemory>
        requires some { SomeAsks port.old self.old.handles }
        requires long { 44 ≤ length ams.now }
        ensures whole { OnOk result ((a : Asking) (h : AmsHeader) → header_of ams.now ≡ Some h → AsksSession a port.old self.old
            → a.asker.address ≡ h.source → a.asker.rights ≡ rights_of rights
            → RunsWhole a h (plain_meant Plain.Write (payload_of ams.now)) out.old out.new port.new self.new) }
        ensures appends { OnOk result (AppendsFrame out.old out.new) }
        ensures no_memory { OnErr result (out.new ≡ out.old) }
        ensures keeps { KeepsDescription port.old port.new }
        ensures stream { self.new.stream ≡ self.old.stream }
    {
        let h = header_in(ams);
        let asker = Asker {
            source: h.source,
            rights,
        };
        let asked = write_in(payload_in(ams));
        let answer = writing::write(&mut self.handles, port, asker, &asked);
        put_answer(alloc, ams, &number_in(answer).to_le_bytes(), out)
    }

    #[inline(never)]
    fn state_whole(
        &self,
        alloc: Global,
        port: &Port,
        ams: &[u8],
        out: &mut Octets,
    ) -> Result<(), NoMemory>
        requires long { 32 ≤ length ams.now }
        ensures whole { OnOk result ((a : Asking) (h : AmsHeader) → header_of ams.now ≡ Some h → AsksSession a port.now self.now
            → RunsWhole a h (plain_meant Plain.State (payload_of ams.now)) out.old out.new port.now self.now) }
        ensures appends { OnOk result (AppendsFrame out.old out.new) }
        ensures no_memory { OnErr result (out.new ≡ out.old) }
    {
        let (ads, device) = port.state();
        put_answer(alloc, ams, &state_payload(ads, device), out)
    }
}

// What the payload of a Read asks for.
#[inline(always)]
fn read_in(payload: &[u8]) -> ReadRequest
    requires { 12 ≤ length payload.now }
    ensures { read_meant result ≡ plain_meant Plain.Read payload.now }
{
    ReadRequest {
        group: get32(payload, 0),
        offset: get32(payload, 4),
        len: get32(payload, 8),
    }
}

// What the payload of a Write asks for.
#[inline(always)]
fn write_in(payload: &[u8]) -> WriteRequest<'_>
    requires { 12 ≤ length payload.now }
    ensures { write_meant result ≡ plain_meant Plain.Write payload.now }
{
    WriteRequest::new(get32(payload, 0), get32(payload, 4), &payload[12..])
}

// The payload of the reply to a ReadState: result 4, ADS state 2, device state 2.
#[inline(always)]
fn state_payload(ads: u16, device: u16) -> [u8; 8]
    ensures { result ≡ to_le_bytes w32 0 ++ (to_le_bytes w16 ads ++ to_le_bytes w16 device) }
{
    let [a, b] = ads.to_le_bytes();
    let [c, d] = device.to_le_bytes();
    [0, 0, 0, 0, a, b, c, d]
}
