//! The connections are served, one after another.

ghost use Rattle.std.specs.Prelude.{◌≡◌, ◌≤◌, OnOk, OnErr};
ghost use Rattle.ads_outside.specs.Rose.{Rose};
ghost use Rattle.serve_loop.specs.Leads.{Leads, Breaks};
ghost use Rattle.serve_loop.specs.Serving.{EndsWhereThere, ServesAllOf};

use crate::offers::offer_all;
use ads_base::NoMemory;
use ads_outside::{Shut, Wire};
use ads_served::Served;

/// The connections of these numbers are served, in this order.
pub(crate) fn serve_each<W: Wire, M: Served>(
    served: &mut M,
    wire: &mut W,
    numbers: &[u32],
) -> Result<(), NoMemory>
    ensures ok { OnOk result (Leads M.steps M.noted (M.serves served.old) (M.serves served.new)
        (W.state wire.old).history (W.state wire.new).history 0 (ServesAllOf M.steps numbers.now)) }
    ensures no_memory { OnErr result (Breaks M.steps M.noted (M.serves served.old)
        (W.state wire.old).history (W.state wire.new).history 0) }
    ensures kept { W.kept wire.new ≡ W.kept wire.old }
    ensures later { (W.state wire.old).faults ≤ (W.state wire.new).faults }
    ensures wanted { (W.state wire.old).wants ≤ (W.state wire.new).wants }
    ensures memory { OnErr result (Rose (W.state wire.old).wants (W.state wire.new).wants) }
{
    for number in numbers {
        serve_one(served, wire, *number)?;
    }
    Ok(())
}

// A connection is offered what waits for it, and is shut where it is closing.
fn serve_one<W: Wire, M: Served>(served: &mut M, wire: &mut W, conn: u32) -> Result<(), NoMemory>
    ensures ok { OnOk result (Leads M.steps M.noted (M.serves served.old) (M.serves served.new)
        (W.state wire.old).history (W.state wire.new).history 0 (EndsWhereThere M.steps conn)) }
    ensures no_memory { OnErr result (Breaks M.steps M.noted (M.serves served.old)
        (W.state wire.old).history (W.state wire.new).history 0) }
    ensures kept { W.kept wire.new ≡ W.kept wire.old }
    ensures later { (W.state wire.old).faults ≤ (W.state wire.new).faults }
    ensures wanted { (W.state wire.old).wants ≤ (W.state wire.new).wants }
    ensures memory { OnErr result (Rose (W.state wire.old).wants (W.state wire.new).wants) }
{
    if offer_all(served, wire, conn)? {
        return Ok(());
    }
    if !served.closing(conn) {
        return Ok(());
    }
    match wire.shut(conn) {
        Shut::Done => {
            served.remove(conn);
            Ok(())
        }
        Shut::Memory => Err(NoMemory),
    }
}
