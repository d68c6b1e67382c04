//! A reload of the description.

ghost use Rattle.std.specs.Prelude.{◌≡◌, ◌≤◌, List, length, All, false, IfOk, OnOk, Ok, Err};
ghost use Rattle.signals.specs.Wave.{Wave};
ghost use Rattle.ads_outside.specs.declared.event.Event.TheVariants as event;
ghost use Rattle.spec_plant.specs.Accepted.{IsAccepted};
ghost use Rattle.type_layout.specs.Descriptions.{description_of};
ghost use Rattle.server_core.specs.ServerView.{view_of};
ghost use Rattle.server_core.specs.Serves.{ServesSome, IsServing};
ghost use Rattle.server_core.specs.Outcomes.{TakesEvent};
ghost use Rattle.server_core.specs.Reloading.{Refuses, Exchanges, Accepts, fault_note};

use crate::Outcome;
use crate::clients::skip_closing;
use crate::delivering::deliver;
use crate::device::Device;
use crate::server::Server;
use crate::telling::tell_all;
use ads_base::NoMemory;
use ads_outside::ReloadNote;
use net_routes::Admission;
use std::alloc::Global;
use symbol_file::{DescFault, read};
use type_layout::Description;

impl Server {
    /// The text of a description is read: accepted, it takes the place of the one that is there; refused, it is counted
    /// and noted alone.
    pub(crate) fn reload(&mut self, alloc: Global, text: &[u8]) -> Result<Outcome, NoMemory>
        requires { IsServing (view_of self.old) }
        ensures { IfOk result (λ outcome. (waves : List Wave) → ServesSome (view_of self.old) waves
            → TakesEvent (view_of self.old) (view_of self.new) waves waves (event.Reload text.now) outcome) }
    {
        let answer = read(alloc, text, self.device.signals)?;
        match answer {
            Err(fault) => self.refuse(alloc, fault),
            Ok(d) => self.accept(alloc, &d),
        }
    }

    fn refuse(&mut self, alloc: Global, fault: DescFault) -> Result<Outcome, NoMemory>
        ensures { IfOk result (Refuses self.old self.new fault) }
    {
        self.notes.push(alloc, note_of(fault))?;
        self.summary.count_refused();
        Ok(Outcome::ReloadRefused(fault))
    }

    // The device of a description takes the place of the one that is there, and each session that is not closing is told.
    fn exchange(&mut self, alloc: Global, d: &Description) -> Result<u8, NoMemory>
        requires serving { IsServing (view_of self.old) }
        requires accepted { IsAccepted (description_of d.now) self.old.device.signals }
        ensures { IfOk result (Exchanges self.old self.new (description_of d.now)) }
    {
        let ports = self.device.ports.reload(alloc, d)?;
        let moves = self.device.ports.moves(alloc, &ports)?;
        let numbers = ports.numbers(alloc)?;
        let others = self.device.admission.others();
        let admission = Admission::build(alloc, &d.routes, others)?;
        skip_closing(&self.clients.outlets, &mut self.clients.sessions);
        let sessions = self.clients.sessions.as_mut_slice();
        tell_all(
            alloc,
            sessions,
            &moves,
            numbers.as_slice(),
            self.device.net,
            self.device.moment,
        )?;
        let version = ports.version();
        self.device = Device {
            net: d.net,
            admission,
            ports,
            signals: self.device.signals,
            moment: self.device.moment,
        };
        Ok(version)
    }

    fn accept(&mut self, alloc: Global, d: &Description) -> Result<Outcome, NoMemory>
        requires serving { IsServing (view_of self.old) }
        requires accepted { IsAccepted (description_of d.now) self.old.device.signals }
        ensures { IfOk result (Accepts self.old self.new (description_of d.now)) }
    {
        let version = self.exchange(alloc, d)?;
        self.notes.push(alloc, ReloadNote::Ok(version))?;
        self.summary.count_accepted();
        deliver(
            alloc,
            &mut self.clients.outlets,
            &mut self.clients.sessions,
            &mut self.summary,
        )?;
        Ok(Outcome::ReloadOk(version))
    }
}

// What is noted of a refused reload.
fn note_of(fault: DescFault) -> ReloadNote
    ensures { result ≡ fault_note fault }
{
    match fault {
        DescFault::Syntax => ReloadNote::Refused(0),
        DescFault::Rule { number, item: _ } => ReloadNote::Refused(number),
    }
}
