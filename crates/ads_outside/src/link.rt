//! What a client speaks over.

ghost use Rattle.std.specs.Prelude.{◌≡◌, ◌<◌, List, length};

use crate::{Connected, Received, Sent};

/// A connection to a server, and a clock. It may tell its log; a real socket does not.
pub trait Link {
    ghost use Rattle.ads_outside.specs.declared.link_move.LinkMove.{LinkMove as MoveOf};
    ghost use Rattle.ads_outside.specs.LinkAnswers.{Connects, Sends, Receives};
    ghost use Rattle.ads_outside.specs.LinkAnswers.{log_after_connect, TellsSent, log_after_recv};
    ghost use Rattle.ads_outside.specs.LinkState.{LinkState, LinkNeverFalls};

    /// Its last moment, its answers since it was connected, and how many calls failed.
    ghost state: { Self → LinkState };

    /// What it began with, which no call changes.
    ghost Origin: { Type 0 };

    /// Its log, where it tells: what it was connected to, what was sent and what came, in order. A link that tells
    /// nothing may be told any log.
    ghost tells: { Self → Origin → List MoveOf → Type 0 };

    /// How many calls failed; the count stands still at its type's end.
    fn faults(&self) -> u64
        ensures { result ≡ (state self.now).faults };

    /// Connects to a server.
    fn connect(&mut self, to: &str) -> Connected
        ensures connects { Connects result (state self.old) (state self.new) }
        ensures told { (o : Origin) (log : List MoveOf) → tells self.old o log → tells self.new o (log_after_connect result to.now log) }
        ensures later { LinkNeverFalls (state self.old) (state self.new) };

    /// Sends bytes.
    fn send(&mut self, bytes: &[u8]) -> Sent
        ensures sends { Sends result (state self.old) (state self.new) }
        ensures told { (o : Origin) (log : List MoveOf) → tells self.old o log → TellsSent (λ sent. tells self.new o sent) result bytes.now log }
        ensures later { LinkNeverFalls (state self.old) (state self.new) };

    /// What comes next: bytes into a buffer, or nothing for a while, or the end of the connection.
    fn recv(&mut self, buf: &mut [u8]) -> Received
        requires { 0 < length buf.old }
        ensures receives { Receives result (length buf.old) (state self.old) (state self.new) }
        ensures told { (o : Origin) (log : List MoveOf) → tells self.old o log → tells self.new o (log_after_recv result buf.new log) }
        ensures later { LinkNeverFalls (state self.old) (state self.new) };
}
