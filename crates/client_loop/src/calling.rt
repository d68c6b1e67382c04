//! The whole call.

ghost use Rattle.spec_formats.specs.Header.{AmsAddress};
ghost use Rattle.spec_client.specs.Calls.{Call as CallSpec};
ghost use Rattle.spec_client.specs.Runner.{new_runner};
ghost use Rattle.client_calls.specs.Represents.{StandsFor, IsGoingOn};
ghost use Rattle.spec_client.specs.Conversation.{conversation_begun};
ghost use Rattle.ams_header.specs.Header.{address_of};
ghost use Rattle.ads_outside.specs.LinkState.{LinkNeverFalls};
ghost use Rattle.ads_outside.specs.SinkState.{NeverFalls};
ghost use Rattle.client_replies.specs.Sound.{HasShortTexts};
ghost use Rattle.client_replies.specs.Stages.{call_meant};
ghost use Rattle.client_loop.specs.Called.{AfterCall, calling};
ghost use Rattle.client_loop.specs.Due.{first_steps};
ghost use Rattle.client_loop.specs.Hearing.{EndsFrom, TalksAlone};
ghost use Rattle.client_loop.specs.Outlets.{outlets, IsLater};
ghost use Rattle.client_loop.specs.Ready.{IsReady};

use crate::hearing::hear_all;
use crate::no_keeper::NoKeeper;
use crate::turning::{Turned, take_turns};
use crate::{LoopEnd, RecordEnd};
use ads_base::{AmsAddr, NoMemory};
use ads_outside::{Connected, Link, Sink};
use client_calls::{Call, Runner};
use sample_store::Keeper;
use std::alloc::Global;

/// A call over a link. It connects the link to `to`, and the moment of that answer is the first one. Then it sends each
/// request and puts each text of the call, in order, and hears what the link gives next, until the call is over. It ends
/// with the millionth `Quiet` in a row and the 10,000,000,000,000th answer, unless the call is over by it.
pub fn run_call<L: Link, S: Sink>(
    alloc: Global,
    call: Call,
    me: AmsAddr,
    peer: AmsAddr,
    to: &str,
    link: &mut L,
    out: &mut S,
) -> Result<LoopEnd, NoMemory>
    requires { HasShortTexts (call_meant call) }
    ensures called { AfterCall result (calling (address_of me) (address_of peer) (call_meant call) to.now)
        (L.tells link.old) (L.tells link.new) (L.state link.old) (L.state link.new) (S.state out.old) (S.state out.new) }
    ensures link_later { LinkNeverFalls (L.state link.old) (L.state link.new) }
    ensures out_later { NeverFalls (S.state out.old) (S.state out.new) }
{
    match link.connect(to) {
        Connected::Ready(now) => talk(alloc, call, me, peer, link, out, now),
        Connected::Failed => Ok(LoopEnd::LinkFault),
        Connected::Memory => Err(NoMemory),
    }
}

// The call over a link that was connected at this moment.
fn talk<L: Link, S: Sink>(
    alloc: Global,
    call: Call,
    me: AmsAddr,
    peer: AmsAddr,
    link: &mut L,
    out: &mut S,
    now: u64,
) -> Result<LoopEnd, NoMemory>
    requires { HasShortTexts (call_meant call) }
    ensures talks { TalksAlone result (first_steps (address_of me) (address_of peer) (call_meant call) now)
        (conversation_begun (address_of me) (address_of peer) (call_meant call) now)
        (L.tells link.old) (L.tells link.new) (L.state link.old) (L.state link.new) (S.state out.old) (S.state out.new) }
    ensures link_later { LinkNeverFalls (L.state link.old) (L.state link.new) }
    ensures out_later { NeverFalls (S.state out.old) (S.state out.new) }
{
    match Runner::new(alloc, call, me, peer) {
        Ok(mut runner) => talk_alone(alloc, &mut runner, link, out, now),
        Err(e) => Err(e),
    }
}

// The call of a new runner that keeps no rows.
fn talk_alone<L: Link, S: Sink>(
    alloc: Global,
    runner: &mut Runner,
    link: &mut L,
    out: &mut S,
    now: u64,
) -> Result<LoopEnd, NoMemory>
    requires { IsGoingOn runner.old }
    ensures talks { (me peer : AmsAddress) (call : CallSpec) → StandsFor runner.old (new_runner me peer call)
        → TalksAlone result (first_steps me peer call now) (conversation_begun me peer call now)
        (L.tells link.old) (L.tells link.new) (L.state link.old) (L.state link.new) (S.state out.old) (S.state out.new) }
    ensures link_later { LinkNeverFalls (L.state link.old) (L.state link.new) }
    ensures out_later { NeverFalls (S.state out.old) (S.state out.new) }
{
    let mut keeper = NoKeeper;
    match talk_by(alloc, runner, link, out, &mut keeper, now) {
        Ok(RecordEnd::Loop(end)) => Ok(end),
        // The keeper of no rows never fails.
        Ok(RecordEnd::KeeperFault) => Err(NoMemory),
        Err(e) => Err(e),
    }
}

/// The call of a new runner.
pub(crate) fn talk_by<L: Link, S: Sink, K: Keeper>(
    alloc: Global,
    runner: &mut Runner,
    link: &mut L,
    out: &mut S,
    keeper: &mut K,
    now: u64,
) -> Result<RecordEnd, NoMemory>
    requires { IsReady runner.old (K.state keeper.old).rows }
    ensures talks { (me peer : AmsAddress) (call : CallSpec) → StandsFor runner.old (new_runner me peer call)
        → EndsFrom result (first_steps me peer call now) (conversation_begun me peer call now) runner.new
        (L.tells link.old) (L.tells link.new) (L.state link.old) (L.state link.new)
        (outlets (S.state out.old) (K.state keeper.old)) (outlets (S.state out.new) (K.state keeper.new)) }
    ensures link_later { LinkNeverFalls (L.state link.old) (L.state link.new) }
    ensures out_later { IsLater (outlets (S.state out.old) (K.state keeper.old)) (outlets (S.state out.new) (K.state keeper.new)) }
{
    match take_turns(alloc, runner, link, out, keeper, now) {
        Ok(Turned::Waits) => hear_all(alloc, runner, link, out, keeper),
        Ok(Turned::Over(end)) => Ok(RecordEnd::Loop(LoopEnd::Call(end))),
        Ok(Turned::LinkFault) => Ok(RecordEnd::Loop(LoopEnd::LinkFault)),
        Ok(Turned::WriteFault) => Ok(RecordEnd::Loop(LoopEnd::WriteFault)),
        Ok(Turned::KeeperFault) => Ok(RecordEnd::KeeperFault),
        Err(e) => Err(e),
    }
}
