//! An answer of the router is offered to a connection.

ghost use Rattle.std.specs.Prelude.{◌≡◌, ◌≤◌, ◌<◌, ◌^◌, length, false, IfOk, OnErr};
ghost use Rattle.ads_outside.specs.WireState.{logged};
ghost use Rattle.ads_outside.specs.declared.moves.Move.TheVariants as move;
ghost use Rattle.local_router.specs.Routes.{Answers};
ghost use Rattle.local_router.specs.Seen.{SameBeside};

use ads_base::NoMemory;
use ads_outside::{Offer, Shut, Wire};

// So many bytes are offered at once.
const MOST: usize = 4_294_967_295;

/// Whether the connection takes the answer whole at once; where not, it is lost, or is shut here. A longer answer than an
/// offer may have is want of memory.
#[tactic(auto, using(crate::proofs::AnswerLemmas::beside_logged, crate::proofs::AnswerLemmas::beside_taken, crate::proofs::AnswerLemmas::beside_on))]
pub(crate) fn answer<W: Wire>(wire: &mut W, conn: u32, reply: &[u8]) -> Result<bool, NoMemory>
    ensures ok { IfOk result (λ whole. Answers whole conn reply.now (W.state wire.old).history (W.state wire.new).history) }
    ensures beside { SameBeside (W.state wire.old).history (W.state wire.new).history }
    ensures kept { W.kept wire.new ≡ W.kept wire.old }
    ensures later { (W.state wire.old).faults ≤ (W.state wire.new).faults }
    ensures wanted { (W.state wire.old).wants ≤ (W.state wire.new).wants }
{
    if reply.is_empty() {
        return Ok(true);
    }
    if reply.len() > MOST {
        return Err(NoMemory);
    }
    match wire.offer(conn, reply) {
        Offer::Took(taken) => {
            if taken as usize == reply.len() {
                return Ok(true);
            }
            cut_off(wire, conn)
        }
        Offer::Failed => Ok(false),
        Offer::Memory => Err(NoMemory),
    }
}

// A connection that took a part is shut.
#[tactic(auto, using(crate::proofs::AnswerLemmas::beside_logged, crate::proofs::AnswerLemmas::beside_same))]
fn cut_off<W: Wire>(wire: &mut W, conn: u32) -> Result<bool, NoMemory>
    ensures ok { IfOk result (λ whole. (whole ≡ false)
        × ((W.state wire.new).history ≡ logged (move.Shut conn) (W.state wire.old).history)) }
    ensures beside { SameBeside (W.state wire.old).history (W.state wire.new).history }
    ensures kept { W.kept wire.new ≡ W.kept wire.old }
    ensures later { (W.state wire.old).faults ≤ (W.state wire.new).faults }
    ensures wanted { (W.state wire.old).wants ≤ (W.state wire.new).wants }
{
    match wire.shut(conn) {
        Shut::Done => Ok(false),
        Shut::Memory => Err(NoMemory),
    }
}
