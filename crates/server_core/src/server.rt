//! All that a core keeps but its signals.

ghost use Rattle.std.specs.Prelude.{◌≡◌, ◌≤◌, ◌<◌, ℕ, List, length, slice_get, OnOk, IfSome, IsSomeAnd, option_copied, option_map, Some};
ghost use Rattle.std.specs.List.{concat};
ghost use Rattle.signals.specs.Wave.{Wave};
ghost use Rattle.ads_outside.specs.declared.event.Event.TheVariants as event;
ghost use Rattle.ads_outside.specs.declared.moves.Move.TheVariants as move;
ghost use Rattle.ads_outside.specs.Wholes.{wholes};
ghost use Rattle.spec_machine.specs.MachineState.{present_numbers};
ghost use Rattle.out_queue.specs.Queue.{QUEUE_LIMIT};
ghost use Rattle.server_core.specs.CoreState.{CoreState, after_event, after_move, after_moves, OpensNew, is_to_be_shut_at};
ghost use Rattle.connections.specs.Outlets.{offer_among, run_among, offers_among};

use crate::Summary;
use crate::clients::Clients;
use crate::device::Device;
use crate::taking::take_fed;
use ads_base::NoMemory;
use ads_outside::ReloadNotes;
use connections::remove_at;
use std::alloc::Global;

/// The device, the connections, and what is told of the run.
#[derive(Drop)]
pub(crate) struct Server {
    pub(crate) device: Device,
    pub(crate) clients: Clients,
    pub(crate) summary: Summary,
    pub(crate) notes: ReloadNotes,
}

impl Server {
    ghost use Rattle.server_core.specs.ServerView.{view_of};
    ghost use Rattle.server_core.specs.Serves.{ServesEach, ServesSome, IsServing, FollowsEach};

    /// Connections that are idle by now are forgotten among those that were touched.
    pub(crate) fn settle(&mut self)
        ensures view { view_of self.new ≡ view_of self.old }
    {
        self.clients.outlets.settle();
    }

    /// A connection is opened; nothing changes where its number is there.
    pub(crate) fn open(&mut self, alloc: Global, connection: u32) -> Result<(), NoMemory>
        ensures follows { OnOk result ((waves : List Wave) (x : CoreState) → ServesEach (view_of self.old) waves x
            → OpensNew x (event.Opened connection)
            → FollowsEach (view_of self.old) (view_of self.new) waves x (after_event x (event.Opened connection))) }
        ensures some { OnOk result ((waves : List Wave) → ServesSome (view_of self.old) waves → ServesSome (view_of self.new) waves) }
        ensures notes { self.new.notes ≡ self.old.notes }
    {
        match self.clients.outlets.place_of(connection) {
            Some(_) => Ok(()),
            None => {
                self.clients.open(alloc, connection)?;
                self.summary.count_connection();
                Ok(())
            }
        }
    }

    /// A piece of a connection comes in. Meanwhile its queue is out, open, so that each reply is written where it waits.
    pub(crate) fn piece(
        &mut self,
        alloc: Global,
        connection: u32,
        bytes: &[u8],
    ) -> Result<(), NoMemory>
        requires { IsServing (view_of self.old) }
        ensures follows { OnOk result ((waves : List Wave) (x : CoreState) → ServesEach (view_of self.old) waves x
            → FollowsEach (view_of self.old) (view_of self.new) waves x (after_event x (event.Piece connection bytes.now))) }
        ensures notes { self.new.notes ≡ self.old.notes }
    {
        let Some(i) = self.clients.outlets.place_of(connection) else {
            return Ok(());
        };
        if self.clients.outlets.is_closing(i) {
            return Ok(());
        }
        let mut queue = self.clients.outlets.open_queue(alloc, i)?;
        let stream = &mut self.clients.streams[i];
        let turned = &mut self.clients.sessions[i];
        let mut closes = false;
        let taken = take_fed(
            alloc,
            stream,
            &mut turned.session,
            &mut queue,
            &mut closes,
            &mut self.device,
            &mut self.summary,
            bytes,
        );
        self.clients.outlets.close_queue(i, queue, closes);
        taken
    }

    /// A connection is writable.
    pub(crate) fn writable(&mut self, connection: u32)
        ensures follows { (waves : List Wave) (x : CoreState) → ServesEach (view_of self.old) waves x
            → FollowsEach (view_of self.old) (view_of self.new) waves x (after_event x (event.Writable connection)) }
        ensures notes { self.new.notes ≡ self.old.notes }
    {
        self.clients.outlets.free(connection);
    }

    /// A connection is gone: it was closed, lost or shut.
    pub(crate) fn end(&mut self, connection: u32)
        ensures follows { (waves : List Wave) (x : CoreState) → ServesEach (view_of self.old) waves x
            → FollowsEach (view_of self.old) (view_of self.new) waves x (after_event x (event.Closed connection)) }
        ensures notes { self.new.notes ≡ self.old.notes }
    {
        if let Some(i) = self.clients.outlets.end(connection) {
            remove_at(&mut self.clients.streams, i);
            remove_at(&mut self.clients.sessions, i);
        }
    }

    /// The first n bytes of what was offered to a connection were taken.
    pub(crate) fn took(&mut self, connection: u32, n: u32)
        requires { IsSomeAnd (offer_among self.old.clients.outlets connection) (λ left. n ≤ length left) }
        ensures follows { (waves : List Wave) (x : CoreState) (left bytes : List ℕ) → ServesEach (view_of self.old) waves x
            → offer_among self.old.clients.outlets connection ≡ Some left → length bytes ≡ n
            → FollowsEach (view_of self.old) (view_of self.new) waves x (after_move x (move.Took connection (length left) bytes)) }
        ensures fewer { offers_among self.new.clients.outlets connection < offers_among self.old.clients.outlets connection }
        ensures notes { self.new.notes ≡ self.old.notes }
    {
        self.clients.outlets.took(connection, n);
    }

    /// What is left of the first frame that waits for a connection, unless it is blocked.
    pub(crate) fn offer_of(&self, connection: u32) -> Option<&[u8]>
        ensures offer { option_copied result ≡ offer_among self.now.clients.outlets connection }
        ensures bound { IfSome result (λ left. length left.now ≤ QUEUE_LIMIT) }
    {
        self.clients.outlets.offer_of(connection)
    }

    /// All frames that wait for a connection, one behind another, unless it is blocked.
    pub(crate) fn run_of(&self, connection: u32) -> Option<&[u8]>
        ensures run { option_copied result ≡ option_map concat (run_among self.now.clients.outlets connection) }
        ensures bound { IfSome result (λ run. length run.now ≤ QUEUE_LIMIT) }
    {
        self.clients.outlets.run_of(connection)
    }

    /// All frames that waited for a connection were taken whole.
    pub(crate) fn took_run(&mut self, connection: u32)
        ensures follows { (waves : List Wave) (x : CoreState) (frames : List (List ℕ)) → ServesEach (view_of self.old) waves x
            → run_among self.old.clients.outlets connection ≡ Some frames
            → FollowsEach (view_of self.old) (view_of self.new) waves x (after_moves x (wholes connection frames)) }
        ensures notes { self.new.notes ≡ self.old.notes }
    {
        self.clients.outlets.took_run(connection);
    }

    /// Whether a connection that is there is to be shut.
    pub(crate) fn closing(&self, connection: u32) -> bool
        ensures { (waves : List Wave) (x : CoreState) → ServesEach (view_of self.now) waves x → result ≡ is_to_be_shut_at connection x }
    {
        self.clients.outlets.is_to_be_shut(connection)
    }

    /// The number of the n-th connection that is there.
    pub(crate) fn connection(&self, n: usize) -> Option<u32>
        ensures { (waves : List Wave) (x : CoreState) → ServesEach (view_of self.now) waves x → result ≡ slice_get (present_numbers x.state) n }
    {
        self.clients.outlets.number_at(n)
    }
}
