//! What a server is served over.

ghost use Rattle.std.specs.Prelude.{◌≡◌, ◌≤◌, ◌<◌, ◌^◌, length};

use crate::{Event, Next, Offer, Shut, Started};

/// Connections and a clock: events come from it, and connections take bytes. It may tell its log and what it was
/// started with; real sockets do not.
pub trait Wire {
    ghost use Rattle.ads_outside.specs.WireAnswers.{Starts, Gives, Takes, TakesRun, Shuts};
    ghost use Rattle.ads_outside.specs.WireState.{WireState};

    /// What its calls led to, where that is told, how many of them failed, and in how many memory was wanting.
    ghost state: { Self → WireState };

    /// What no call changes.
    ghost Kept: { Type 0 };

    ghost kept: { Self → Kept };

    /// How many calls failed; the count stands still at its type's end.
    fn faults(&self) -> u64
        ensures { result ≡ (state self.now).faults };

    /// How many calls of `start` and `next` failed; the count stands still at its type's end.
    fn stops(&self) -> u64
        ensures { result ≡ (state self.now).history.stops };

    /// Begins to listen there. The named description, which has these bytes, is watched from here on.
    fn start(&mut self, listen: &str, name: &str, first: &[u8]) -> Started
        ensures starts { Starts result (state self.old) (state self.new)
            (record { listen = listen.now; name = name.now; first = first.now }) }
        ensures kept { kept self.new ≡ kept self.old }
        ensures later { (state self.old).faults ≤ (state self.new).faults }
        ensures wanted { (state self.old).wants ≤ (state self.new).wants };

    /// The next event.
    fn next(&mut self) -> Next
        ensures gives { Gives result (state self.old) (state self.new) }
        ensures kept { kept self.new ≡ kept self.old }
        ensures later { (state self.old).faults ≤ (state self.new).faults }
        ensures wanted { (state self.old).wants ≤ (state self.new).wants };

    /// Takes an event back that was served, so that its room can be used again. Nothing else changes.
    fn take_back(&mut self, _event: Event)
        ensures same { state self.new ≡ state self.old }
        ensures kept { kept self.new ≡ kept self.old }
    {}

    /// Offers bytes to a connection.
    fn offer(&mut self, conn: u32, bytes: &[u8]) -> Offer
        requires { length bytes.now < 2 ^ 32 }
        ensures takes { Takes result (state self.old) (state self.new) conn bytes.now }
        ensures kept { kept self.new ≡ kept self.old }
        ensures later { (state self.old).faults ≤ (state self.new).faults }
        ensures wanted { (state self.old).wants ≤ (state self.new).wants };

    /// Offers frames that stand one behind another in these bytes, each by an offer of its own, where all of them are taken
    /// whole at once. False where not, or where it has to be told which frames they are: then nothing has changed, and each is
    /// to be offered by itself.
    fn offer_run(&mut self, _conn: u32, _run: &[u8]) -> bool
        requires { length _run.now < 2 ^ 32 }
        ensures takes { TakesRun result (state self.old) (state self.new) _conn _run.now }
        ensures kept { kept self.new ≡ kept self.old }
        ensures later { (state self.old).faults ≤ (state self.new).faults }
        ensures wanted { (state self.old).wants ≤ (state self.new).wants }
    {
        false
    }

    /// Shuts a connection.
    fn shut(&mut self, conn: u32) -> Shut
        ensures shuts { Shuts result (state self.old) (state self.new) conn }
        ensures kept { kept self.new ≡ kept self.old }
        ensures later { (state self.old).faults ≤ (state self.new).faults }
        ensures wanted { (state self.old).wants ≤ (state self.new).wants };
}
