//! A machine that is served.

ghost use denote.Param.Send.{IsSync};
ghost use Rattle.std.specs.Prelude.{◌≡◌, ◌≤◌, ◌<◌, ℕ, List, length, Option, Some, None, true, IfOk, OnOk, OnErr, IfSome, IsSome, IsErr, bytes_eq};
ghost use Rattle.std.specs.Prelude.{option_copied, option_map};
ghost use Rattle.std.specs.List.{concat};
ghost use Rattle.ads_outside.specs.declared.event.Event.{Event as EventOf};
ghost use Rattle.ads_outside.specs.declared.event.Event.TheVariants as event;
ghost use Rattle.ads_outside.specs.declared.moves.Move.TheVariants as move;
ghost use Rattle.ads_outside.specs.declared.reload_note.ReloadNote.{ReloadNote};
ghost use Rattle.spec_machine.specs.Connection.{MAX_QUEUED};
ghost use Rattle.spec_machine.specs.MachineState.{MachineState};
ghost use Rattle.spec_machine.specs.Moves.{EventStep};
ghost use Rattle.spec_machine.specs.Running.{OpensNew, offer_at, is_to_be_shut_at};
ghost use Rattle.spec_store.specs.BodyText.{is_body_text};
ghost use Rattle.ads_outside.specs.Wholes.{wholes};
ghost use Rattle.ads_served.specs.Standing.{Standing, standing_after, standing_after_all};
ghost use Rattle.ads_served.specs.Due.{LeavesOutIdle, FitsOffer, IsRun};
ghost use Rattle.ads_served.specs.Opened.{AreApart, OpensAlone};

use ads_base::{NoMemory, Octets};
use ads_outside::Event;
use std::alloc::Global;
use std::thread::Threads;

/// A machine over connections: events go in, frames for each connection come out.
pub trait Served {
    /// What an event comes to.
    type Came: Drop;

    /// Its world, and what it keeps for a client.
    ghost World: { Type 0 };

    ghost Client: { Type 0 };

    /// How an event changes its state.
    ghost steps: { EventStep World Client };

    /// The body text of a world: what is kept of it over a stop.
    ghost body_of: { World → List ℕ };

    /// What an event comes to in a state.
    ghost comes_to: { MachineState World Client → EventOf → Self.Came → Type 0 };

    /// What it notes of an event: one note of a reload.
    ghost noted: { MachineState World Client → EventOf → List ReloadNote };

    /// What it stands for.
    ghost serves: { Self → Standing World Client → Type 0 };

    /// What it offers to a connection.
    ghost offer_in: { Self → ℕ → Option (List ℕ) };

    /// The frames that it lends in one run.
    ghost run_in: { Self → ℕ → Option (List (List ℕ)) };

    /// How many offers to a connection are left at most.
    ghost offers_left: { Self → ℕ → ℕ };

    /// Memory was wanting.
    ghost has_failed: { Self → Type 0 };

    /// Takes one event, and says what it came to. After want of memory it answers want of memory from then on.
    fn step<T: Threads + Sync>(
        &mut self,
        rt: &T,
        alloc: Global,
        event: &Event,
    ) -> Result<Self::Came, NoMemory>
        requires { IsSync T.row }
        ensures follows { OnOk result ((x : Standing World Client) → serves self.old x → OpensNew x.running event.now
            → serves self.new (standing_after steps noted x (move.Event event.now))) }
        ensures came { IfOk result (λ came. (x : Standing World Client) → serves self.old x → comes_to x.running.state event.now came) }
        ensures no_memory { OnErr result (has_failed self.new) }
        ensures from_then_on { has_failed self.old → IsErr result };

    /// The connections that have something to be offered or are to be shut, in the order of opening, in place of what
    /// `numbers` held. Others may stand among them, and none is left out that is to be served. After want of memory `step`
    /// answers want of memory from then on.
    fn due(&mut self, alloc: Global, numbers: &mut Vec<u32>) -> Result<(), NoMemory>
        ensures due { OnOk result ((x : Standing World Client) → serves self.new x → LeavesOutIdle x.running numbers.new.items) }
        ensures stays { OnOk result ((x : Standing World Client) → serves self.old x → serves self.new x) }
        ensures no_memory { OnErr result (has_failed self.new) };

    /// What is left of the first frame that waits for a connection; None where it is not there, nothing waits, or it
    /// is blocked: its last offer was not taken whole, and it was not writable since.
    fn offer_of(&self, conn: u32) -> Option<&[u8]>
        ensures offer { option_copied result ≡ offer_in self.now conn }
        ensures machine { (x : Standing World Client) → serves self.now x → option_copied result ≡ offer_at conn x.running }
        ensures bound { IfSome result (λ left. length left.now ≤ MAX_QUEUED) };

    /// The first n bytes of what was offered to a connection were taken.
    fn took(&mut self, conn: u32, n: u32)
        requires { FitsOffer n (offer_in self.old conn) }
        ensures follows { (x : Standing World Client) (left bytes : List ℕ) → serves self.old x → offer_in self.old conn ≡ Some left
            → length bytes ≡ n → serves self.new (standing_after steps noted x (move.Took conn (length left) bytes)) }
        ensures fewer { offers_left self.new conn < offers_left self.old conn }
        ensures from_then_on { has_failed self.old → has_failed self.new };

    /// All that waits for a connection in one run, one frame behind another; None where it is not there, nothing waits, or it
    /// is blocked, and where what waits does not stand in one run.
    fn run_of(&self, conn: u32) -> Option<&[u8]>
        ensures run { option_copied result ≡ option_map concat (run_in self.now conn) }
        ensures machine { (x : Standing World Client) (frames : List (List ℕ)) → serves self.now x → run_in self.now conn ≡ Some frames
            → IsRun conn x.running frames }
        ensures bound { IfSome result (λ run. length run.now ≤ MAX_QUEUED) };

    /// All that waits for a connection was taken, each frame by an offer of its own.
    fn took_run(&mut self, conn: u32)
        requires { IsSome (run_in self.old conn) }
        ensures follows { (x : Standing World Client) (frames : List (List ℕ)) → serves self.old x → run_in self.old conn ≡ Some frames
            → serves self.new (standing_after_all steps noted x (wholes conn frames)) }
        ensures from_then_on { has_failed self.old → has_failed self.new };

    /// Whether a connection that is there is to be shut.
    fn closing(&self, conn: u32) -> bool
        ensures { (x : Standing World Client) → serves self.now x → result ≡ is_to_be_shut_at conn x.running };

    /// Removes a connection that was lost or shut; nothing changes where it is not there.
    fn remove(&mut self, conn: u32)
        ensures shut { (x : Standing World Client) → serves self.old x → serves self.new (standing_after steps noted x (move.Shut conn)) }
        ensures lost { (x : Standing World Client) → serves self.old x → serves self.new (standing_after steps noted x (move.Lost conn)) }
        ensures from_then_on { has_failed self.old → has_failed self.new };

    /// The body text of the world that it stands for.
    fn body(&self, alloc: Global) -> Result<Octets, NoMemory>
        ensures body { IfOk result (λ body. (x : Standing World Client) → serves self.now x → body ≡ body_of x.running.state.world) }
        ensures text { IfOk result (λ body. (x : Standing World Client) → serves self.now x → is_body_text body ≡ true) };

    /// Whether a text is that body text, which is not made for it.
    fn is_body(&self, alloc: Global, text: &[u8]) -> Result<bool, NoMemory>
        ensures { IfOk result (λ same. (x : Standing World Client) → serves self.now x
            → same ≡ bytes_eq text.now (body_of x.running.state.world)) };

    /// No two connections of what it stands for have one number.
    ghost apart: { (m : Self) (x : Standing World Client) → serves m x → AreApart x.running.state.connections };

    /// An event brings no connection but the one that it opens.
    ghost opens_alone: { OpensAlone steps };
}
