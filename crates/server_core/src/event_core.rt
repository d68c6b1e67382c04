//! The core: the machine over the connections that are there.

ghost use Rattle.std.specs.Prelude.{◌≡◌, ◌≤◌, ◌<◌, ◌^◌, ◌++◌, [], ℕ, List, length, filter, slice_get, IfOk, OnOk, OnErr, IfSome, IsErr};
ghost use Rattle.std.specs.Prelude.{IsSome, Some, option_copied, option_map};
ghost use Rattle.std.specs.List.{concat};
ghost use Rattle.type_layout.specs.Descriptions.{description_of};
ghost use Rattle.spec_persistent.specs.Otherwise.{MayBegin};
ghost use Rattle.ads_outside.specs.declared.moves.Move.TheVariants as move;
ghost use Rattle.ads_outside.specs.Wholes.{wholes};
ghost use Rattle.spec_machine.specs.MachineState.{present_numbers};
ghost use Rattle.spec_machine.specs.Outcomes.{outcome_of_event};
ghost use Rattle.spec_machine.specs.RunText.{notes_of_event};
ghost use Rattle.spec_machine.specs.Summary.{summary_of};
ghost use Rattle.out_queue.specs.Queue.{QUEUE_LIMIT};
ghost use Rattle.port_device.specs.Holds.{HoldsPorts};
ghost use Rattle.ads_served.specs.Due.{is_due, IsRun};
ghost use Rattle.server_core.specs.Counts.{counts_in};
ghost use Rattle.server_core.specs.CoreState.{CoreState, started, started_in, after_event, after_move, after_moves, OpensNew};
ghost use Rattle.server_core.specs.CoreState.{offer_at, is_to_be_shut_at};
ghost use Rattle.server_core.specs.Profiles.{profile_of};
ghost use Rattle.server_core.specs.Served.{served};
ghost use Rattle.server_core.specs.Outcomes.{outcome_of};
ghost use Rattle.server_core.specs.Serves.{Serves, HasCounts, Follows, HasFailed, offer_in, run_in, offers_in, FitsOffer};

use crate::clients::Clients;
use crate::device::Device;
use crate::events::take_event;
use crate::server::Server;
use crate::sources::Sources;
use crate::{Outcome, Profile, Summary};
use ads_base::NoMemory;
use ads_outside::{Event, ReloadNotes};
use port_device::{Manner, Ports};
use std::alloc::Global;
use std::marker::Model;
use std::thread::Threads;
use type_layout::Description;

/// The server's machine over many connections, in the order of their opening. A connection that is closed, lost or
/// shut is no longer kept; what it did stays in the counts.
#[derive(Drop)]
pub struct Core<S: Sources> {
    server: Server,
    signals: S,
    // Memory was wanting: nothing is answered any more.
    failed: bool,
}

impl<S: Sources> Model for Core<S> {
    ghost use Rattle.std.specs.Prelude.{◌≡◌, false};
    ghost use Rattle.server_core.specs.ServerView.{view_of};
    ghost use Rattle.server_core.specs.Serves.{CoreView, ServesSome};

    ghost Value = { CoreView };

    ghost view = { λ c. record { server = view_of c.server; waves = S.waves c.signals; failed = c.failed } };

    ghost invariant = { λ c. c.failed ≡ false → ServesSome (view_of c.server) (S.waves c.signals) };
}

impl<S: Sources> Core<S> {
    /// The core of an accepted description and its signals behind the strict server, as `build_in` makes it.
    pub fn build(alloc: Global, d: Description, signals: S) -> Result<Core<S>, NoMemory>
        requires few { length (S.waves signals) < 2 ^ 32 }
        requires accepted { MayBegin (description_of d) (length (S.waves signals)) }
        ensures serves { IfOk result (λ core. Serves core (started (description_of d) (S.waves signals))) }
        ensures counted { IfOk result (λ core. HasCounts core (started (description_of d) (S.waves signals))) }
        ensures notes { IfOk result (λ core. core.server.notes ≡ []) }
    {
        let profile = Profile {
            manner: Manner::Strict,
            others: None,
        };
        Core::build_in(alloc, profile, d, signals)
    }

    /// The core of an accepted description and its signals behind a server of this profile, without a connection. Persistent
    /// symbols may begin with other bytes than was accepted, as many as they have.
    pub fn build_in(
        alloc: Global,
        profile: Profile,
        d: Description,
        signals: S,
    ) -> Result<Core<S>, NoMemory>
        requires few { length (S.waves signals) < 2 ^ 32 }
        requires accepted { MayBegin (description_of d) (length (S.waves signals)) }
        ensures serves { IfOk result (λ core. Serves core (started_in (profile_of profile) (description_of d) (S.waves signals))) }
        ensures counted { IfOk result (λ core. HasCounts core (started_in (profile_of profile) (description_of d) (S.waves signals))) }
        ensures notes { IfOk result (λ core. core.server.notes ≡ []) }
    {
        let count = signals.count() as u32;
        let device = Device::build(alloc, profile, &d, count)?;
        Ok(Core {
            server: Server {
                device,
                clients: Clients::new(alloc),
                summary: Summary::nothing(),
                notes: ReloadNotes::new(alloc),
            },
            signals,
            failed: false,
        })
    }

    /// Takes one event. An event of a connection that is not there, or is closing, changes nothing, except its end. After
    /// want of memory it answers want of memory from then on.
    pub fn step<T: Threads + Sync>(
        &mut self,
        rt: &T,
        alloc: Global,
        event: &Event,
    ) -> Result<Outcome, NoMemory>
        ensures follows { OnOk result ((x : CoreState) → Serves self.old x → OpensNew x event.now
            → Follows self.old self.new x (after_event x event.now)) }
        ensures outcome { IfOk result (λ outcome. (x : CoreState) → Serves self.old x
            → outcome_of outcome ≡ outcome_of_event served x.state event.now) }
        ensures noted { OnOk result ((x : CoreState) → Serves self.old x
            → self.new.server.notes ≡ self.old.server.notes ++ notes_of_event served x.state event.now) }
        ensures no_memory { OnErr result (HasFailed self.new) }
        ensures from_then_on { HasFailed self.old → IsErr result }
    {
        if self.failed {
            return Err(NoMemory);
        }
        match take_event(rt, alloc, &mut self.server, &mut self.signals, event) {
            Ok(outcome) => Ok(outcome),
            Err(NoMemory) => {
                self.failed = true;
                Err(NoMemory)
            }
        }
    }

    /// The n-th connection that is there, in the order of opening; None past the last.
    pub fn connection(&self, n: usize) -> Option<u32>
        ensures { (x : CoreState) → Serves self.now x → result ≡ slice_get (present_numbers x.state) n }
    {
        self.server.connection(n)
    }

    /// What is left of the first frame that waits for a connection; None where it is not there, nothing waits, or
    /// it is blocked: its last offer was not taken whole, and it was not writable since.
    pub fn offer_of(&self, conn: u32) -> Option<&[u8]>
        ensures offer { option_copied result ≡ offer_in self.now conn }
        ensures machine { (x : CoreState) → Serves self.now x → option_copied result ≡ offer_at conn x }
        ensures bound { IfSome result (λ left. length left.now ≤ QUEUE_LIMIT) }
    {
        self.server.offer_of(conn)
    }

    /// The first n bytes of what was offered to a connection were taken.
    #[inline(always)]
    pub fn took(&mut self, conn: u32, n: u32)
        requires { FitsOffer n conn self.old }
        ensures follows { (x : CoreState) (left bytes : List ℕ) → Serves self.old x → offer_in self.old conn ≡ Some left
            → length bytes ≡ n → Follows self.old self.new x (after_move x (move.Took conn (length left) bytes)) }
        ensures fewer { offers_in self.new conn < offers_in self.old conn }
        ensures notes { self.new.server.notes ≡ self.old.server.notes }
        ensures from_then_on { HasFailed self.old → HasFailed self.new }
    {
        self.server.took(conn, n);
    }

    /// All frames that wait for a connection, one behind another; None where it is not there, nothing waits, or it is blocked.
    pub fn run_of(&self, conn: u32) -> Option<&[u8]>
        ensures run { option_copied result ≡ option_map concat (run_in self.now conn) }
        ensures machine { (x : CoreState) (frames : List (List ℕ)) → Serves self.now x → run_in self.now conn ≡ Some frames
            → IsRun conn x frames }
        ensures bound { IfSome result (λ run. length run.now ≤ QUEUE_LIMIT) }
    {
        self.server.run_of(conn)
    }

    /// All frames that were lent of a connection were taken, each by an offer of its own.
    #[inline(always)]
    pub fn took_run(&mut self, conn: u32)
        requires { IsSome (run_in self.old conn) }
        ensures follows { (x : CoreState) (frames : List (List ℕ)) → Serves self.old x → run_in self.old conn ≡ Some frames
            → Follows self.old self.new x (after_moves x (wholes conn frames)) }
        ensures notes { self.new.server.notes ≡ self.old.server.notes }
        ensures from_then_on { HasFailed self.old → HasFailed self.new }
    {
        self.server.took_run(conn);
    }

    /// Whether a connection that is there is to be shut.
    pub fn closing(&self, conn: u32) -> bool
        ensures { (x : CoreState) → Serves self.now x → result ≡ is_to_be_shut_at conn x }
    {
        self.server.closing(conn)
    }

    /// Removes a connection that was lost or shut; nothing changes where it is not there.
    pub fn remove(&mut self, conn: u32)
        ensures shut { (x : CoreState) → Serves self.old x → Follows self.old self.new x (after_move x (move.Shut conn)) }
        ensures lost { (x : CoreState) → Serves self.old x → Follows self.old self.new x (after_move x (move.Lost conn)) }
        ensures notes { self.new.server.notes ≡ self.old.server.notes }
        ensures from_then_on { HasFailed self.old → HasFailed self.new }
    {
        self.server.end(conn);
    }

    /// The numbers of the connections that have something to be offered or are to be shut, in the order of opening, in the room
    /// of those of the turn before. It costs what events touched since they were last served: one connection, but for a tick and
    /// a reload. After want of memory `step` answers want of memory from then on.
    pub fn due(&mut self, alloc: Global, numbers: &mut Vec<u32>) -> Result<(), NoMemory>
        ensures due { OnOk result ((x : CoreState) → Serves self.new x
            → numbers.new.items ≡ filter (is_due x) (present_numbers x.state)) }
        ensures stays { OnOk result (self.new ≡ self.old) }
        ensures no_memory { OnErr result (HasFailed self.new) }
    {
        match self.server.clients.outlets.due(alloc, numbers) {
            Ok(()) => Ok(()),
            Err(NoMemory) => {
                self.failed = true;
                Err(NoMemory)
            }
        }
    }

    /// The counts of the run.
    pub fn summary(&self) -> Summary
        ensures { (x : CoreState) → HasCounts self.now x → counts_in result ≡ summary_of x.state }
    {
        self.server.summary
    }

    /// The ports of the plant that it serves.
    pub fn ports(&self) -> &Ports
        ensures { (x : CoreState) → Serves self.now x → HoldsPorts x.state.world result.now }
    {
        &self.server.device.ports
    }

    /// What became of the reloads, in their order.
    pub fn reload_notes(&self) -> &ReloadNotes
        ensures { result.now ≡ self.now.server.notes }
    {
        &self.server.notes
    }
}
