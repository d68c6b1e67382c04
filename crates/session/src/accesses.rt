//! The request of a packet that reads or writes is run: Read, Write and ReadWrite.

ghost use Rattle.std.specs.Prelude.{◌≡◌, OnOk, OnErr};
ghost use Rattle.ads_base.specs.Octets.{Extends};
ghost use Rattle.spec_formats.specs.Request as format;
ghost use Rattle.port_device.specs.Endings.{KeepsDescription};
ghost use Rattle.session.specs.Asking.{Asking};
ghost use Rattle.session.specs.Asks.{SomeAsks};

use crate::asker::Asker;
use crate::groups::takes_parts;
use crate::replies::{number_in, read_reply, read_write_reply};
use crate::requests::{ReadRequest, ReadWriteRequest, WriteRequest};
use crate::{Session, writing};
use ads_base::{NoMemory, Octets, put32};
use port_device::Port;
use std::alloc::Global;

impl Session {
    ghost use Rattle.session.specs.Runs.{AsksSession, SomeSession, IsFrom, Runs};

    /// Appends the payload of the reply to a Read.
    pub(crate) fn read(
        &self,
        alloc: Global,
        port: &Port,
        asked: &ReadRequest,
        out: &mut Octets,
    ) -> Result<(), NoMemory>
        requires some { SomeAsks port.now self.now.handles }
        ensures runs { OnOk result ((a : Asking) → AsksSession a port.now self.now
            → Runs a (format.Read asked.now.group asked.now.offset asked.now.len) out.old out.new port.now self.now) }
        ensures no_memory { OnErr result (Extends out.old out.new) }
    {
        read_reply(alloc, &self.handles, port, *asked, out)
    }

    /// Writes, and appends the result.
    pub(crate) fn write(
        &mut self,
        alloc: Global,
        port: &mut Port,
        asker: Asker,
        asked: &WriteRequest<'_>,
        out: &mut Octets,
    ) -> Result<(), NoMemory>
        requires some { SomeAsks port.old self.old.handles }
        ensures runs { OnOk result ((a : Asking) → AsksSession a port.old self.old → IsFrom a asker.source asker.rights
            → Runs a (format.Write asked.now.group asked.now.offset asked.now.bytes.now) out.old out.new port.new self.new) }
        ensures keeps { KeepsDescription port.old port.new }
        ensures stream { self.new.stream ≡ self.old.stream }
        ensures no_memory { OnErr result (Extends out.old out.new) }
    {
        let answer = writing::write(&mut self.handles, port, asker, asked);
        put32(alloc, out, number_in(answer))
    }

    /// Runs a sum, or appends the payload of the reply to a single ReadWrite.
    pub(crate) fn read_write(
        &mut self,
        alloc: Global,
        port: &mut Port,
        asker: Asker,
        asked: &ReadWriteRequest<'_>,
        out: &mut Octets,
    ) -> Result<(), NoMemory>
        requires some { SomeAsks port.old self.old.handles }
        requires served { SomeSession port.old self.old }
        ensures runs { OnOk result ((a : Asking) → AsksSession a port.old self.old → IsFrom a asker.source asker.rights
            → Runs a (format.ReadWrite asked.now.group asked.now.offset asked.now.len asked.now.bytes.now) out.old out.new port.new self.new) }
        ensures keeps { KeepsDescription port.old port.new }
        ensures stream { self.new.stream ≡ self.old.stream }
        ensures no_memory { OnErr result (Extends out.old out.new) }
    {
        if takes_parts(port, asked.group) {
            return self.sum(alloc, port, asker, asked, out);
        }
        read_write_reply(alloc, &mut self.handles, port, *asked, out)
    }
}
