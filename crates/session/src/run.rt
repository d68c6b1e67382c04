//! The request of a packet that passed the checks is run, and its reply's payload written.

ghost use Rattle.std.specs.Prelude.{◌≡◌, ℕ, List, IfOk, OnOk, OnErr};
ghost use Rattle.ads_base.specs.Octets.{Extends};
ghost use Rattle.spec_formats.specs.Request as format;
ghost use Rattle.ads_commands.specs.Request.{request_meant};
ghost use Rattle.ads_base.specs.declared.ams_addr.AmsAddr.{AmsAddr};
ghost use Rattle.type_layout.specs.declared.description.Rights.{Rights};
ghost use Rattle.port_device.specs.Endings.{KeepsDescription};
ghost use Rattle.port_device.specs.PortMemory.{PortMemory};
ghost use Rattle.notify_table.specs.Specs.{address_of};
ghost use Rattle.session.specs.Asking.{Asking, act_asked};
ghost use Rattle.session.specs.Asks.{SomeAsks};
ghost use Rattle.session.specs.Watching.{AddsAs};

use crate::asker::Asker;
use crate::replies::number_in;
use crate::requests::{NoteRequest, ReadRequest, ReadWriteRequest, WriteRequest};
use crate::{Session, watching};
use ads_base::{NoMemory, Octets, put16, put32};
use ads_commands::{Reply, Request, put_reply};
use port_device::Port;
use return_codes::Code;
use std::alloc::Global;
use type_layout::Rights;

impl Session {
    ghost use Rattle.session.specs.Runs.{AsksSession, SomeSession, IsFrom, Runs};

    /// Runs a request, and appends the payload of its reply. Beckhoff Information System, "ADS Commands".
    pub(crate) fn run(
        &mut self,
        alloc: Global,
        port: &mut Port,
        asker: Asker,
        request: Request<'_>,
        out: &mut Octets,
    ) -> Result<(), NoMemory>
        requires some { SomeAsks port.old self.old.handles }
        requires served { SomeSession port.old self.old }
        ensures runs { OnOk result ((a : Asking) → AsksSession a port.old self.old → IsFrom a asker.source asker.rights
            → Runs a (request_meant request.entry) out.old out.new port.new self.new) }
        ensures keeps { KeepsDescription port.old port.new }
        ensures stream { self.new.stream ≡ self.old.stream }
        ensures no_memory { OnErr result (Extends out.old out.new) }
    {
        match request {
            Request::DeviceInfo => self.info(alloc, port, out),
            Request::Read { group, offset, len } => {
                let asked = ReadRequest { group, offset, len };
                self.read(alloc, port, &asked, out)
            }
            Request::Write {
                group,
                offset,
                bytes,
            } => {
                let asked = WriteRequest::new(group, offset, bytes);
                self.write(alloc, port, asker, &asked, out)
            }
            Request::State => self.state(alloc, port, out),
            Request::Control {
                ads,
                device,
                bytes: _,
            } => self.control(alloc, port, asker.rights, ads, device, out),
            Request::Add {
                group,
                offset,
                len,
                mode,
                delay: _,
                cycle,
            } => {
                let asked = NoteRequest::new(group, offset, len, mode, cycle);
                self.add(alloc, port, asker, &asked, out)
            }
            Request::Delete { handle } => self.delete(alloc, port.number(), handle, out),
            Request::Note(_) => self.note(alloc, out),
            Request::ReadWrite {
                group,
                offset,
                read_len,
                bytes,
            } => {
                let asked = ReadWriteRequest::new(group, offset, read_len, bytes);
                self.read_write(alloc, port, asker, &asked, out)
            }
        }
    }

    // What the device tells of itself.
    fn info(&self, alloc: Global, port: &Port, out: &mut Octets) -> Result<(), NoMemory>
        ensures runs { OnOk result ((a : Asking) → AsksSession a port.now self.now
            → Runs a format.ReadDeviceInfo out.old out.new port.now self.now) }
        ensures no_memory { OnErr result (Extends out.old out.new) }
    {
        let facts = port.facts();
        put_reply(alloc, &Reply::Info(0, facts), out)
    }

    // The two state words.
    fn state(&self, alloc: Global, port: &Port, out: &mut Octets) -> Result<(), NoMemory>
        ensures runs { OnOk result ((a : Asking) → AsksSession a port.now self.now
            → Runs a format.ReadState out.old out.new port.now self.now) }
        ensures no_memory { OnErr result (Extends out.old out.new) }
    {
        let (ads, device) = port.state();
        put32(alloc, out, 0)?;
        put16(alloc, out, ads)?;
        put16(alloc, out, device)
    }

    // The data behind the state words are not looked at.
    fn control(
        &self,
        alloc: Global,
        port: &mut Port,
        rights: Rights,
        ads: u16,
        device: u16,
        out: &mut Octets,
    ) -> Result<(), NoMemory>
        ensures runs { OnOk result ((a : Asking) (source : AmsAddr) (bytes : List ℕ) → AsksSession a port.old self.now
            → IsFrom a source rights → Runs a (format.WriteControl ads device bytes) out.old out.new port.new self.now) }
        ensures keeps { KeepsDescription port.old port.new }
        ensures no_memory { OnErr result (Extends out.old out.new) }
    {
        let answer = port.control(ads, device, rights);
        put_reply(alloc, &Reply::Control(number_in(answer)), out)
    }

    fn add(
        &mut self,
        alloc: Global,
        port: &Port,
        asker: Asker,
        asked: &NoteRequest,
        out: &mut Octets,
    ) -> Result<(), NoMemory>
        requires some { SomeAsks port.now self.old.handles }
        ensures runs { OnOk result ((a : Asking) (delay : ℕ) → AsksSession a port.now self.old → IsFrom a asker.source asker.rights
            → Runs a (format.AddDeviceNotification asked.now.group asked.now.offset asked.now.len asked.now.mode delay asked.now.cycle)
            out.old out.new port.now self.new) }
        ensures stream { self.new.stream ≡ self.old.stream }
        ensures no_memory { OnErr result (Extends out.old out.new) }
    {
        match self.added(alloc, port, asker, asked)? {
            Ok(handle) => put_reply(alloc, &Reply::Add(0, handle), out),
            Err(code) => put_reply(alloc, &Reply::Add(code.number(), 0), out),
        }
    }

    // The handle of a notification that is added, or the code that refuses it.
    fn added(
        &mut self,
        alloc: Global,
        port: &Port,
        asker: Asker,
        asked: &NoteRequest,
    ) -> Result<Result<u32, Code>, NoMemory>
        requires some { SomeAsks port.now self.old.handles }
        ensures adds { IfOk result (λ answer. (a : Asking) (delay : ℕ) → AsksSession a port.now self.old
            → a.asker.address ≡ address_of asker.source
            → AddsAs a (act_asked a (format.AddDeviceNotification asked.now.group asked.now.offset asked.now.len asked.now.mode delay asked.now.cycle))
            answer self.new.watches) }
        ensures keeps { self.new ≡ record self.old { watches = self.new.watches } }
        ensures no_memory { OnErr result (self.new ≡ self.old) }
    {
        watching::add(alloc, &self.handles, &mut self.watches, port, asker, asked)
    }

    fn delete(
        &mut self,
        alloc: Global,
        ams_port: u16,
        handle: u32,
        out: &mut Octets,
    ) -> Result<(), NoMemory>
        ensures runs { OnOk result ((a : Asking) (port : PortMemory) → ams_port ≡ port.number → AsksSession a port self.old
            → Runs a (format.DeleteDeviceNotification handle) out.old out.new port self.new) }
        ensures stream { self.new.stream ≡ self.old.stream }
        ensures no_memory { OnErr result (Extends out.old out.new) }
    {
        let answer = watching::delete(&mut self.watches, ams_port, handle);
        put_reply(alloc, &Reply::Delete(number_in(answer)), out)
    }

    // A notification is stopped by the checks, and does not come here.
    fn note(&self, alloc: Global, out: &mut Octets) -> Result<(), NoMemory>
        ensures runs { OnOk result ((a : Asking) (port : PortMemory) (bytes : List ℕ) → AsksSession a port self.now
            → Runs a (format.DeviceNotification bytes) out.old out.new port self.now) }
        ensures no_memory { OnErr result (Extends out.old out.new) }
    {
        put_reply(alloc, &Reply::Write(0), out)
    }
}
