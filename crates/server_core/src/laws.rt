//! Laws of what a core stands for.

ghost use Rattle.server_core.specs.CoreState.{CoreState};
ghost use Rattle.server_core.specs.Serves.{CoreView, Serves, without_gone};

/// A core stands also for the state that has forgotten the connections that are gone. So an Opened may bear the
/// number of one that is gone: the move is then made from that state.
pub fn gone_connections_are_forgotten()
    ensures { (core : CoreView) (x : CoreState) → Serves core x → Serves core (without_gone x) }
{}
