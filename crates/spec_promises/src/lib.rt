//! What the server promises of every log, in an operator's words: its writes, its notifications, its handles.
#![tactic(auto)]

ghost use Rattle.spec_promises.specs.Written.{ServerHoldsWrites, EachHoldsWrites};
ghost use Rattle.spec_promises.specs.Notified.{ServerNotifies, EachNotifies};
ghost use Rattle.spec_promises.specs.KeptHandles.{ServerKeepsHandles, EachKeepsHandles};

/// At each accepted write of a log, by group and offset, by bit or by handle, alone or as a part of a sum, the bytes that
/// it addresses hold afterwards the bytes that it carries, in their order, and a read that follows answers them; and at each
/// accepted control the state words of its port are those that it carries.
pub fn writes_are_held()
    ensures { ServerHoldsWrites }
{}

/// A notification in cycle mode gives a sample at its first tick, and then at each tick by which its cycle has passed since
/// the last sample, and at no other; on change it gives one at its first tick, is checked then as often, and gives a sample
/// exactly where it finds other bytes than those of the sample before: until it is deleted or ends, or its connection does.
pub fn notifications_are_given()
    ensures { ServerNotifies }
{}

/// A handle that is live before and after a reload reads afterwards, by any who ask for it, what it read before.
pub fn kept_handles_read_the_same()
    ensures { ServerKeepsHandles }
{}

/// The server of either profile promises the same.
pub fn each_profile_promises()
    ensures writes { EachHoldsWrites }
    ensures notifications { EachNotifies }
    ensures handles { EachKeepsHandles }
{}
