//! What waits for connection 1.

ghost use Rattle.std.specs.Prelude.{◌≡◌, ◌<◌, ◌≤◌, ◌^◌, length, IfOk};
ghost use Rattle.server_core.specs.CoreState.{CoreState, offer_at};
ghost use Rattle.server_core.specs.Served.{ServedState};
ghost use Rattle.server_core.specs.Serves.{Serves, offer_in};
ghost use Rattle.local_link.specs.Link.{unblocked, TakesFirst};
ghost use Rattle.local_link.specs.Giving.{CopiesFirst, CopiesOffer, Takes};

use crate::stepping::Steps;
use ads_base::NoMemory;
use ads_outside::Event;
use server_core::{Core, Sources};
use std::alloc::Global;

/// What waits for connection 1 is taken, as far as a buffer takes it: so many bytes, none where nothing waits.
pub(crate) fn take_waiting<S: Steps, G: Sources>(
    steps: &S,
    alloc: Global,
    core: &mut Core<G>,
    buf: &mut [u8],
) -> Result<u32, NoMemory>
    requires can { S.can_step steps.now }
    requires some { 0 < length buf.old }
    ensures fits { IfOk result (λ n. n ≤ length buf.old) }
    ensures takes { IfOk result (λ n. (s : ServedState) → Serves core.old (unblocked s) → Takes n buf.new core.new s) }
    ensures whole { IfOk result (λ n. 0 < n → (s : ServedState) → Serves core.old (unblocked s) → TakesFirst n (length buf.old) s) }
{
    let n = copy_offer(core, buf);
    if n == 0 {
        return Ok(0);
    }
    core.took(1, n);
    steps.step(alloc, core, Event::Writable(1))?;
    Ok(n)
}

// What is offered to connection 1 is copied into a buffer, as far as it takes it.
fn copy_offer<G: Sources>(core: &Core<G>, buf: &mut [u8]) -> u32
    requires { 0 < length buf.old }
    ensures copies { CopiesOffer result (offer_in core.now 1) buf.new }
    ensures machine { (x : CoreState) → Serves core.now x → offer_in core.now 1 ≡ offer_at 1 x }
{
    match core.offer_of(1) {
        Some(left) => copy_first(left, buf),
        None => 0,
    }
}

// The first bytes that a buffer takes.
fn copy_first(left: &[u8], buf: &mut [u8]) -> u32
    requires some { 0 < length buf.old }
    requires bound { length left.now < 2 ^ 32 }
    ensures { CopiesFirst result left.now buf.new }
{
    let n = left.len().min(buf.len());
    buf[..n].copy_from_slice(&left[..n]);
    n as u32
}
