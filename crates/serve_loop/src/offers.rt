//! The offers to one connection.

ghost use Rattle.std.specs.Prelude.{◌≡◌, ◌≤◌, ◌<◌, IfOk, OnErr};
ghost use Rattle.ads_outside.specs.Rose.{Rose};
ghost use Rattle.ads_outside.specs.WireAnswers.{Wants};
ghost use Rattle.serve_loop.specs.Leads.{Breaks, Leads};
ghost use Rattle.serve_loop.specs.Serving.{AfterOffer, AfterOffers, Begins};

use ads_base::NoMemory;
use ads_outside::{Offer, Wire};
use ads_served::Served;

/// What became of one offer.
#[derive(Clone, Copy, Debug, PartialEq, Eq)]
pub(crate) enum Offered {
    /// Some of it was taken.
    Taken,
    /// It failed, and the connection is removed.
    Lost,
    /// Nothing was to be offered.
    Nothing,
}

/// All that waits for a connection is offered, until it is taken or the connection is blocked; true where an offer
/// failed, and the connection is removed.
pub(crate) fn offer_all<W: Wire, M: Served>(
    served: &mut M,
    wire: &mut W,
    conn: u32,
) -> Result<bool, NoMemory>
    ensures ok { IfOk result (λ lost. AfterOffers lost M.steps M.noted (M.serves served.old) (M.serves served.new)
        (W.state wire.old).history (W.state wire.new).history conn) }
    ensures no_memory { OnErr result (Breaks M.steps M.noted (M.serves served.old)
        (W.state wire.old).history (W.state wire.new).history 0) }
    ensures kept { W.kept wire.new ≡ W.kept wire.old }
    ensures later { (W.state wire.old).faults ≤ (W.state wire.new).faults }
    ensures wanted { (W.state wire.old).wants ≤ (W.state wire.new).wants }
    ensures memory { OnErr result (Rose (W.state wire.old).wants (W.state wire.new).wants) }
{
    offer_run(served, wire, conn);
    loop {
        match offer_one(served, wire, conn)? {
            Offered::Taken => {}
            Offered::Lost => return Ok(true),
            Offered::Nothing => return Ok(false),
        }
    }
}

// All that waits is offered in one run; where that is not taken, or there is no run, nothing has changed.
fn offer_run<W: Wire, M: Served>(served: &mut M, wire: &mut W, conn: u32)
    ensures led { Leads M.steps M.noted (M.serves served.old) (M.serves served.new)
        (W.state wire.old).history (W.state wire.new).history 0 (Begins M.steps conn) }
    ensures kept { W.kept wire.new ≡ W.kept wire.old }
    ensures later { (W.state wire.old).faults ≤ (W.state wire.new).faults }
    ensures wanted { (W.state wire.old).wants ≤ (W.state wire.new).wants }
{
    let Some(run) = served.run_of(conn) else {
        return;
    };
    if wire.offer_run(conn, run) {
        served.took_run(conn);
    }
}

// What is left of the first frame that waits is offered.
fn offer_one<W: Wire, M: Served>(
    served: &mut M,
    wire: &mut W,
    conn: u32,
) -> Result<Offered, NoMemory>
    ensures ok { IfOk result (λ offered. AfterOffer offered M.steps M.noted (M.serves served.old) (M.serves served.new)
        (W.state wire.old).history (W.state wire.new).history conn) }
    ensures fewer { IfOk result (λ offered. offered ≡ Offered.Taken
        → M.offers_left served.new conn < M.offers_left served.old conn) }
    ensures no_memory { OnErr result (Wants (W.state wire.old) (W.state wire.new)) }
    ensures kept { W.kept wire.new ≡ W.kept wire.old }
    ensures later { (W.state wire.old).faults ≤ (W.state wire.new).faults }
    ensures wanted { (W.state wire.old).wants ≤ (W.state wire.new).wants }
{
    let Some(left) = served.offer_of(conn) else {
        return Ok(Offered::Nothing);
    };
    match wire.offer(conn, left) {
        Offer::Took(n) => {
            served.took(conn, n);
            Ok(Offered::Taken)
        }
        Offer::Failed => {
            served.remove(conn);
            Ok(Offered::Lost)
        }
        Offer::Memory => Err(NoMemory),
    }
}
