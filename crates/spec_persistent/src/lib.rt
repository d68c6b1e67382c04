//! Persistent symbols: the entries of what they hold, and descriptions that begin with stored bytes. Definitions in
//! specs/, and their laws as functions with an empty body.
#![tactic(auto)]

ghost use Rattle.spec_persistent.specs.Laws.{AcceptedMayBegin, StoredMayBegin, BegunIsSound, BegunIsNumberedApart};

/// A device may begin with each accepted description, as it is and with stored bytes, whatever was stored.
pub fn accepted_may_begin()
    ensures itself { AcceptedMayBegin }
    ensures stored { StoredMayBegin }
{}

/// What a device may begin with is as sound as an accepted description: symbols are found by their names, lie in their
/// areas and begin with as many bytes as they have, no two have a name or a byte in common; and no two ports have one
/// number.
pub fn begun_is_sound()
    ensures sound { BegunIsSound }
    ensures numbers { BegunIsNumberedApart }
{}
