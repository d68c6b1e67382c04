//! An AMS packet is answered.

ghost use Rattle.std.specs.Prelude.{◌≡◌, length, drop, IfOk, OnOk, OnErr, Some};
ghost use Rattle.ads_base.specs.declared.ams_addr.AmsAddr.{AmsAddr};
ghost use Rattle.spec_frames.specs.Frame.{IsAmsPacket};
ghost use Rattle.spec_formats.specs.Request as format;
ghost use Rattle.spec_machine.specs.World.{World, port_numbered};
ghost use Rattle.spec_machine.specs.Client.{Client};
ghost use Rattle.ads_commands.specs.Request.{request_meant};
ghost use Rattle.ams_header.specs.Header.{ams_header_of};
ghost use Rattle.port_device.specs.Holds.{HoldsPorts};
ghost use Rattle.session.specs.Answered.{AppendsFrame, IsErrorFrame, IsRefusedFrame};
ghost use Rattle.session.specs.Asking.{Asking};

use crate::asker::Asker;
use crate::checks::examined;
use crate::examined::Examined;
use crate::framing::framed;
use crate::plain::{PlainPacket, plain_in};
use crate::refusing::refusal_of;
use crate::room::{HEADERS, put_room};
use crate::{Session, Taken, Told};
use ads_base::{NetId, NoMemory, Octets};
use ads_commands::{Request, put_reply};
use ams_header::Header;
use net_routes::Admission;
use port_device::Ports;
use return_codes::Code;
use std::alloc::Global;
use type_layout::Rights;

impl Session {
    ghost use Rattle.session.specs.Answered.{AnswersAsked};
    ghost use Rattle.session.specs.Plain.{IsPlain};
    ghost use Rattle.session.specs.Runs.{IsFrom};
    ghost use Rattle.session.specs.Served.{IsServed, KeepDescriptions};
    ghost use Rattle.session.specs.StandsFor.{StandsFor};
    ghost use Rattle.session.specs.Takes.{AppendsAnswer, HasAddress, Takes, FitsFrame, outcome_of_packet, taken_of};

    /// Answers an AMS packet, and leaves the ports as its request makes them. Check after check: one whose data length is
    /// wrong, that is a response or no request, whose source has no rights, or that is for another machine, another port, a
    /// notification or of no command, is refused or passed over; then its request is run, or the parts of its sum one after
    /// another.
    ///
    /// After want of memory no answer is there, and what its request did may be done.
    /// Beckhoff Information System, "AMS Header", "ADS Commands".
    pub fn take(
        &mut self,
        alloc: Global,
        ports: &mut Ports,
        admission: &Admission,
        net: NetId,
        ams: &[u8],
    ) -> Result<Taken, NoMemory>
        requires packet { IsAmsPacket ams.now }
        requires served { IsServed ports.old self.old }
        ensures takes { IfOk result (λ taken. (w : World) (c : Client) → HoldsPorts w ports.old → StandsFor w.plant c self.old
            → HasAddress w net.bytes admission.now
            → Takes (outcome_of_packet w c ams.now) taken ports.new self.new) }
        ensures fits { IfOk result FitsFrame }
        ensures stream { self.new.stream ≡ self.old.stream }
        ensures keeps { KeepDescriptions ports.old ports.new }
    {
        let mut frame = Octets::new(alloc);
        match self.take_onto(alloc, ports, admission, net, ams, &mut frame)? {
            Told::Answer => Ok(Taken::Answer(frame)),
            Told::Silent => Ok(Taken::Silent),
            Told::Close => Ok(Taken::Close),
        }
    }

    /// The same, but the frame of the answer is appended to bytes, which stay as they are where no answer is.
    pub fn take_onto(
        &mut self,
        alloc: Global,
        ports: &mut Ports,
        admission: &Admission,
        net: NetId,
        ams: &[u8],
        out: &mut Octets,
    ) -> Result<Told, NoMemory>
        requires packet { IsAmsPacket ams.now }
        requires served { IsServed ports.old self.old }
        ensures takes { IfOk result (λ told. (w : World) (c : Client) → HoldsPorts w ports.old → StandsFor w.plant c self.old
            → HasAddress w net.bytes admission.now
            → Takes (outcome_of_packet w c ams.now) (taken_of told (drop (length out.old) out.new)) ports.new self.new) }
        ensures appends { IfOk result (λ told. AppendsAnswer told out.old out.new) }
        ensures fits { IfOk result (λ told. FitsFrame (taken_of told (drop (length out.old) out.new))) }
        ensures no_memory { OnErr result (out.new ≡ out.old) }
        ensures stream { self.new.stream ≡ self.old.stream }
        ensures keeps { KeepDescriptions ports.old ports.new }
    {
        match plain_in(ams, admission, net) {
            Some(packet) => self.take_plain(alloc, ports, admission, net, ams, packet, out),
            None => self.take_other(alloc, ports, admission, net, ams, out),
        }
    }

    // The same for a plain packet.
    #[inline(always)]
    fn take_plain(
        &mut self,
        alloc: Global,
        ports: &mut Ports,
        admission: &Admission,
        net: NetId,
        ams: &[u8],
        packet: PlainPacket,
        out: &mut Octets,
    ) -> Result<Told, NoMemory>
        requires packet { IsAmsPacket ams.now }
        requires served { IsServed ports.old self.old }
        requires plain { IsPlain ams.now net.bytes admission.now packet }
        ensures takes { IfOk result (λ told. (w : World) (c : Client) → HoldsPorts w ports.old → StandsFor w.plant c self.old
            → HasAddress w net.bytes admission.now
            → Takes (outcome_of_packet w c ams.now) (taken_of told (drop (length out.old) out.new)) ports.new self.new) }
        ensures appends { IfOk result (λ told. AppendsAnswer told out.old out.new) }
        ensures fits { IfOk result (λ told. FitsFrame (taken_of told (drop (length out.old) out.new))) }
        ensures no_memory { OnErr result (out.new ≡ out.old) }
        ensures stream { self.new.stream ≡ self.old.stream }
        ensures keeps { KeepDescriptions ports.old ports.new }
    {
        match ports.find_mut(packet.h.target.port) {
            Some(port) => match self.answer_plain(alloc, port, packet, ams, out) {
                Ok(()) => Ok(Told::Answer),
                Err(no_memory) => Err(no_memory),
            },
            None => self.take_other(alloc, ports, admission, net, ams, out),
        }
    }

    // The same for a packet of any kind, check after check.
    #[inline(never)]
    fn take_other(
        &mut self,
        alloc: Global,
        ports: &mut Ports,
        admission: &Admission,
        net: NetId,
        ams: &[u8],
        out: &mut Octets,
    ) -> Result<Told, NoMemory>
        requires packet { IsAmsPacket ams.now }
        requires served { IsServed ports.old self.old }
        ensures takes { IfOk result (λ told. (w : World) (c : Client) → HoldsPorts w ports.old → StandsFor w.plant c self.old
            → HasAddress w net.bytes admission.now
            → Takes (outcome_of_packet w c ams.now) (taken_of told (drop (length out.old) out.new)) ports.new self.new) }
        ensures appends { IfOk result (λ told. AppendsAnswer told out.old out.new) }
        ensures fits { IfOk result (λ told. FitsFrame (taken_of told (drop (length out.old) out.new))) }
        ensures no_memory { OnErr result (out.new ≡ out.old) }
        ensures stream { self.new.stream ≡ self.old.stream }
        ensures keeps { KeepDescriptions ports.old ports.new }
    {
        match examined(ams, ports, admission, net) {
            Examined::Silent => Ok(Told::Silent),
            Examined::Close => Ok(Told::Close),
            Examined::Error(h, code) => {
                error_frame(alloc, &h, code, out)?;
                Ok(Told::Answer)
            }
            Examined::Refused(h) => {
                refused_frame(alloc, &h, out)?;
                Ok(Told::Answer)
            }
            Examined::Asked(h, rights, request) => {
                self.answer(alloc, ports, &h, rights, request, out)
            }
        }
    }

    // The answer to the request of a packet that passed the checks.
    fn answer(
        &mut self,
        alloc: Global,
        ports: &mut Ports,
        h: &Header,
        rights: Rights,
        request: Request<'_>,
        out: &mut Octets,
    ) -> Result<Told, NoMemory>
        requires served { IsServed ports.old self.old }
        ensures answers { IfOk result (λ told. (a : Asking) → HoldsPorts a.world ports.old
            → StandsFor a.world.plant a.client self.old → IsFrom a h.now.source rights
            → port_numbered h.now.target.port a.world.plant.ports ≡ Some a.asker.port
            → AnswersAsked a (ams_header_of h.now) (request_meant request.entry) (taken_of told (drop (length out.old) out.new))
            ports.new self.new) }
        ensures appends { IfOk result (λ told. AppendsAnswer told out.old out.new) }
        ensures fits { IfOk result (λ told. FitsFrame (taken_of told (drop (length out.old) out.new))) }
        ensures no_memory { OnErr result (out.new ≡ out.old) }
        ensures stream { self.new.stream ≡ self.old.stream }
        ensures keeps { KeepDescriptions ports.old ports.new }
    {
        let Some(port) = ports.find_mut(h.target.port) else {
            return Ok(Told::Silent);
        };
        let start = out.len();
        put_room(alloc, out, HEADERS)?;
        let asker = Asker {
            source: h.source,
            rights,
        };
        match self.run(alloc, port, asker, request, out) {
            Ok(()) => {
                framed(h, 0, start, out)?;
                Ok(Told::Answer)
            }
            Err(no_memory) => {
                out.cut(start);
                Err(no_memory)
            }
        }
    }
}

// Appends the frame of an AMS error, which has no data.
fn error_frame(alloc: Global, h: &Header, code: Code, out: &mut Octets) -> Result<(), NoMemory>
    ensures frame { OnOk result (IsErrorFrame (ams_header_of h.now) code (drop (length out.old) out.new)) }
    ensures appends { OnOk result (AppendsFrame out.old out.new) }
    ensures no_memory { OnErr result (out.new ≡ out.old) }
{
    let start = out.len();
    put_room(alloc, out, HEADERS)?;
    framed(h, code.number(), start, out)
}

// Appends the frame of a request that is refused for its size.
fn refused_frame(alloc: Global, h: &Header, out: &mut Octets) -> Result<(), NoMemory>
    ensures frame { OnOk result (IsRefusedFrame (ams_header_of h.now) (drop (length out.old) out.new)) }
    ensures appends { OnOk result (AppendsFrame out.old out.new) }
    ensures no_memory { OnErr result (out.new ≡ out.old) }
{
    let start = out.len();
    put_room(alloc, out, HEADERS)?;
    match put_reply(alloc, &refusal_of(h.command), out) {
        Ok(()) => framed(h, 0, start, out),
        Err(no_memory) => {
            out.cut(start);
            Err(no_memory)
        }
    }
}
