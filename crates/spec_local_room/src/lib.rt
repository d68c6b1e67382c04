//! Calls over the closed server in the same process: they have room, so they are the same in every cutting.
#![tactic(auto)]

ghost use Rattle.spec_local_room.specs.Laws.{LocalCallsHaveRoom, LocalCallsAreOne, LocalLinksAreOne, LocalCallsBegin, LocalLinksBegin};
ghost use Rattle.spec_local_room.specs.Laws.{LocalCallsEnd};

/// A bounded call over the server's machine has room, so it is the same however its answers are cut, over the machine and
/// over a link to it, and behind some answers it is a beginning of that call; and it ends, by no timeout, and for a text that
/// is no value only where it sets one.
pub fn local_calls_have_room()
    ensures room { LocalCallsHaveRoom }
    ensures one { LocalCallsAreOne }
    ensures link { LocalLinksAreOne }
    ensures begins { LocalCallsBegin }
    ensures link_begins { LocalLinksBegin }
    ensures ends { LocalCallsEnd }
{}
