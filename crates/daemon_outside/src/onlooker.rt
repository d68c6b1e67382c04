//! Who looks on while a wire is served.

ghost use Rattle.std.specs.Prelude.{[], ◌∷◌};
ghost use Rattle.daemon_outside.specs.Sights.{Sees};
ghost use Rattle.daemon_outside.specs.Sights as sights;

use crate::StopCause;
use ads_outside::Event;

/// Is told what happens on a wire, and can change nothing of it. It may tell what it has seen; a log does not.
pub trait Onlooker<W> {
    ghost use Rattle.std.specs.Prelude.{List};
    ghost use Rattle.daemon_outside.specs.Sights.{Sight};

    /// It has seen these, one behind another.
    ghost seen: { Self → List Sight → Type 0 };

    /// The wire listens there, for the description with this name and these bytes.
    fn listens(&mut self, listen: &str, name: &str, first: &[u8])
        ensures { Sees seen (sights.Listens listen.now name.now first.now ∷ []) self.old self.new };

    /// The wire could not be started.
    fn cannot_listen(&mut self, listen: &str)
        ensures { Sees seen (sights.CannotListen listen.now ∷ []) self.old self.new };

    /// An event came over this wire.
    fn saw(&mut self, event: &Event, wire: &W)
        ensures { Sees seen (sights.Saw event.now ∷ []) self.old self.new };

    /// A connection was offered these bytes, and took so many first ones of them.
    fn offered(&mut self, conn: u32, bytes: &[u8], taken: u32)
        ensures { Sees seen (sights.Offered conn bytes.now taken ∷ []) self.old self.new };

    /// An offer failed, and the connection is gone.
    fn lost(&mut self, conn: u32)
        ensures { Sees seen (sights.Lost conn ∷ []) self.old self.new };

    /// The server shut a connection.
    fn shut(&mut self, conn: u32)
        ensures { Sees seen (sights.Shut conn ∷ []) self.old self.new };

    /// An end was asked for, and the wire ends.
    fn stops(&mut self, cause: StopCause)
        ensures { Sees seen (sights.Stops cause ∷ []) self.old self.new };

    /// The wire has no more events by itself.
    fn ended(&mut self)
        ensures { Sees seen (sights.Ended ∷ []) self.old self.new };

    /// The wire failed to give an event.
    fn failed(&mut self)
        ensures { Sees seen (sights.Failed ∷ []) self.old self.new };

    /// Memory was wanting.
    fn lacked_memory(&mut self)
        ensures { Sees seen (sights.LackedMemory ∷ []) self.old self.new };
}
