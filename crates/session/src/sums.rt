//! A sum of a packet is run: its parts are single requests of one client at one port.

ghost use Rattle.std.specs.Prelude.{◌≡◌, ◌≤◌, ◌+◌, ◌++◌, length, OnOk, OnErr, IfOk};
ghost use Rattle.ads_base.specs.Octets.{Extends};
ghost use Rattle.spec_formats.specs.Ranges.{greatest_len};
ghost use Rattle.spec_formats.specs.Request as format;
ghost use Rattle.sum_commands.specs.Served.{StandsForSome};
ghost use Rattle.sum_commands.specs.SumCommand.{sum_of, refusal_in, refused_by, sum_reply, left_by_sum};
ghost use Rattle.port_device.specs.Endings.{KeepsDescription};
ghost use Rattle.session.specs.Asking.{Asking};
ghost use Rattle.session.specs.Runs.{IsSumOf};
ghost use Rattle.session.specs.Single.{SumState, IsSingle, part_outcome, state_after};

use crate::Session;
use crate::asker::Asker;
use crate::replies::{FRONT, fill_front, number_in};
use crate::requests::ReadWriteRequest;
use crate::room::put_room;
use crate::single::Single;
use ads_base::{NoMemory, Octets};
use port_device::Port;
use return_codes::Code;
use std::alloc::Global;
use sum_commands::run_sum;

impl Session {
    ghost use Rattle.session.specs.Runs.{AsksSession, SomeSession, IsFrom, Runs};

    /// Runs the parts of a sum one after another, and appends the payload of its reply.
    pub(crate) fn sum(
        &mut self,
        alloc: Global,
        port: &mut Port,
        asker: Asker,
        asked: &ReadWriteRequest<'_>,
        out: &mut Octets,
    ) -> Result<(), NoMemory>
        requires some { SomeSession port.old self.old }
        requires sum { IsSumOf port.old.manner asked.now.group }
        ensures runs { OnOk result ((a : Asking) → AsksSession a port.old self.old → IsFrom a asker.source asker.rights
            → Runs a (format.ReadWrite asked.now.group asked.now.offset asked.now.len asked.now.bytes.now) out.old out.new port.new self.new) }
        ensures keeps { KeepsDescription port.old port.new }
        ensures stream { self.new.stream ≡ self.old.stream }
        ensures no_memory { OnErr result (Extends out.old out.new) }
    {
        let start = out.len();
        put_room(alloc, out, FRONT)?;
        let mut single = Single {
            handles: &mut self.handles,
            watches: &mut self.watches,
            port: &mut *port,
            asker,
        };
        let answer = run_parts(alloc, &mut single, asked, out)?;
        fill_front(out, start, number_in(answer));
        Ok(())
    }
}

// The parts of a sum, at the handles, the notifications and the port that were lent for it.
fn run_parts(
    alloc: Global,
    single: &mut Single<'_>,
    asked: &ReadWriteRequest<'_>,
    out: &mut Octets,
) -> Result<Result<(), Code>, NoMemory>
    requires some { StandsForSome IsSingle single.old }
    requires sum { IsSumOf single.old.port.now.manner asked.now.group }
    ensures handles { single.new.handles.ghost_name ≡ single.old.handles.ghost_name }
    ensures watches { single.new.watches.ghost_name ≡ single.old.watches.ghost_name }
    ensures port { single.new.port.ghost_name ≡ single.old.port.ghost_name }
    ensures keeps { KeepsDescription single.old.port.now single.new.port.now }
    ensures code { IfOk result (λ answer. refused_by answer
        ≡ refusal_in (sum_of asked.now.group asked.now.offset asked.now.bytes.now) asked.now.offset (length asked.now.bytes.now) asked.now.len) }
    ensures err { IfOk result (λ answer. OnErr answer ((single.new ≡ single.old) × (out.new ≡ out.old))) }
    ensures reply { IfOk result (λ answer. OnOk answer ((x : SumState) → IsSingle single.old x
        → out.new ≡ out.old ++ sum_reply part_outcome state_after x (sum_of asked.now.group asked.now.offset asked.now.bytes.now))) }
    ensures leaves { IfOk result (λ answer. OnOk answer ((x : SumState) → IsSingle single.old x
        → IsSingle single.new (left_by_sum state_after x (sum_of asked.now.group asked.now.offset asked.now.bytes.now)))) }
    ensures grows { IfOk result (λ answer. length out.old ≤ length out.new) }
    ensures short { IfOk result (λ answer. length out.new ≤ length out.old + greatest_len) }
    ensures no_memory { OnErr result (out.new ≡ out.old) }
{
    run_sum(
        alloc,
        single,
        asked.group,
        asked.offset,
        asked.len,
        asked.bytes,
        out,
    )
}
