//! The whole recording.

ghost use Rattle.std.specs.Prelude.{◌≡◌};
ghost use Rattle.spec_formats.specs.Header.{AmsAddress};
ghost use Rattle.spec_client.specs.Calls.{Call as CallSpec};
ghost use Rattle.spec_client.specs.Runner.{new_runner};
ghost use Rattle.spec_client.specs.Conversation.{conversation_begun};
ghost use Rattle.spec_client.specs.Stages.{entries_taken};
ghost use Rattle.ams_header.specs.Header.{address_of};
ghost use Rattle.ads_outside.specs.LinkState.{LinkNeverFalls};
ghost use Rattle.sample_store.specs.Keeper.{AreNumbered};
ghost use Rattle.client_calls.specs.Recording.{AreNames, CanRecord, record_meant};
ghost use Rattle.client_calls.specs.Represents.{StandsFor};
ghost use Rattle.client_loop.specs.Called.{calling};
ghost use Rattle.client_loop.specs.Due.{first_steps};
ghost use Rattle.client_loop.specs.Lines.{AfterLines, EndsRecord, Finishes, ended_by};
ghost use Rattle.client_loop.specs.Outlets.{outlets, IsLater};
ghost use Rattle.client_loop.specs.Ready.{IsReady};
ghost use Rattle.client_loop.specs.Recorded.{AfterRecord, IsFirst};

use crate::calling::talk_by;
use crate::total_lines::total_lines;
use crate::turning::{Turned, print};
use crate::{LoopEnd, RecordEnd};
use ads_base::{AmsAddr, NoMemory, Octets};
use ads_outside::{Connected, Link, Sink};
use client_calls::{CallEnd, Names, RecordSpec, Runner};
use sample_store::Keeper;
use std::alloc::Global;

/// A recording over a link: as a call, and each row is put into the keeper. Where it is done, the total of each of its
/// entries is asked, and then the lines of all are put as one text.
pub fn run_record<L: Link, S: Sink, K: Keeper>(
    alloc: Global,
    names: &Names,
    spec: RecordSpec,
    me: AmsAddr,
    peer: AmsAddr,
    to: &str,
    link: &mut L,
    out: &mut S,
    keeper: &mut K,
) -> Result<RecordEnd, NoMemory>
    requires names { AreNames names.now }
    requires spec { CanRecord spec }
    requires numbers { AreNumbered (K.state keeper.old).rows }
    requires next { IsFirst (K.state keeper.old).rows spec.first }
    ensures recorded { AfterRecord result (calling (address_of me) (address_of peer) (record_meant names.now spec) to.now)
        (L.tells link.old) (L.tells link.new) (L.state link.old) (L.state link.new)
        (outlets (S.state out.old) (K.state keeper.old)) (outlets (S.state out.new) (K.state keeper.new)) }
    ensures link_later { LinkNeverFalls (L.state link.old) (L.state link.new) }
    ensures out_later { IsLater (outlets (S.state out.old) (K.state keeper.old)) (outlets (S.state out.new) (K.state keeper.new)) }
{
    match link.connect(to) {
        Connected::Ready(now) => record(alloc, names, spec, me, peer, link, out, keeper, now),
        Connected::Failed => Ok(RecordEnd::Loop(LoopEnd::LinkFault)),
        Connected::Memory => Err(NoMemory),
    }
}

// The recording over a link that was connected at this moment.
fn record<L: Link, S: Sink, K: Keeper>(
    alloc: Global,
    names: &Names,
    spec: RecordSpec,
    me: AmsAddr,
    peer: AmsAddr,
    link: &mut L,
    out: &mut S,
    keeper: &mut K,
    now: u64,
) -> Result<RecordEnd, NoMemory>
    requires names { AreNames names.now }
    requires spec { CanRecord spec }
    requires numbers { AreNumbered (K.state keeper.old).rows }
    requires next { IsFirst (K.state keeper.old).rows spec.first }
    ensures records { EndsRecord result (first_steps (address_of me) (address_of peer) (record_meant names.now spec) now)
        (conversation_begun (address_of me) (address_of peer) (record_meant names.now spec) now)
        (L.tells link.old) (L.tells link.new) (L.state link.old) (L.state link.new)
        (outlets (S.state out.old) (K.state keeper.old)) (outlets (S.state out.new) (K.state keeper.new)) }
    ensures link_later { LinkNeverFalls (L.state link.old) (L.state link.new) }
    ensures out_later { IsLater (outlets (S.state out.old) (K.state keeper.old)) (outlets (S.state out.new) (K.state keeper.new)) }
{
    match Runner::record(alloc, names, spec, me, peer) {
        Ok(mut runner) => record_by(alloc, &mut runner, link, out, keeper, now),
        Err(e) => Err(e),
    }
}

// The recording of a new runner.
fn record_by<L: Link, S: Sink, K: Keeper>(
    alloc: Global,
    runner: &mut Runner,
    link: &mut L,
    out: &mut S,
    keeper: &mut K,
    now: u64,
) -> Result<RecordEnd, NoMemory>
    requires { IsReady runner.old (K.state keeper.old).rows }
    ensures records { (me peer : AmsAddress) (call : CallSpec) → StandsFor runner.old (new_runner me peer call)
        → EndsRecord result (first_steps me peer call now) (conversation_begun me peer call now)
        (L.tells link.old) (L.tells link.new) (L.state link.old) (L.state link.new)
        (outlets (S.state out.old) (K.state keeper.old)) (outlets (S.state out.new) (K.state keeper.new)) }
    ensures link_later { LinkNeverFalls (L.state link.old) (L.state link.new) }
    ensures out_later { IsLater (outlets (S.state out.old) (K.state keeper.old)) (outlets (S.state out.new) (K.state keeper.new)) }
{
    match talk_by(alloc, runner, link, out, keeper, now) {
        Ok(end) => finish(alloc, runner, out, keeper, end),
        Err(e) => Err(e),
    }
}

// Behind an end come the lines, where the recording is done.
fn finish<S: Sink, K: Keeper>(
    alloc: Global,
    runner: &Runner,
    out: &mut S,
    keeper: &mut K,
    end: RecordEnd,
) -> Result<RecordEnd, NoMemory>
    ensures finishes { Finishes end result (entries_taken runner.now.stage)
        (outlets (S.state out.old) (K.state keeper.old)) (outlets (S.state out.new) (K.state keeper.new)) }
    ensures out_later { IsLater (outlets (S.state out.old) (K.state keeper.old)) (outlets (S.state out.new) (K.state keeper.new)) }
{
    match end {
        RecordEnd::Loop(LoopEnd::Call(CallEnd::Done)) => put_lines(alloc, runner, out, keeper),
        RecordEnd::Loop(LoopEnd::Call(end)) => Ok(RecordEnd::Loop(LoopEnd::Call(end))),
        RecordEnd::Loop(LoopEnd::LinkFault) => Ok(RecordEnd::Loop(LoopEnd::LinkFault)),
        RecordEnd::Loop(LoopEnd::WriteFault) => Ok(RecordEnd::Loop(LoopEnd::WriteFault)),
        RecordEnd::Loop(LoopEnd::Budget) => Ok(RecordEnd::Loop(LoopEnd::Budget)),
        RecordEnd::KeeperFault => Ok(RecordEnd::KeeperFault),
    }
}

// How a recording ends whose lines were put, or not.
fn ending(put: Result<Option<Turned>, NoMemory>) -> Result<RecordEnd, NoMemory>
    ensures { result ≡ ended_by put }
{
    match put {
        Ok(None) => Ok(RecordEnd::Loop(LoopEnd::Call(CallEnd::Done))),
        Ok(Some(_)) => Ok(RecordEnd::Loop(LoopEnd::WriteFault)),
        Err(e) => Err(e),
    }
}

// All totals are asked, and then the lines are put as one text.
fn put_lines<S: Sink, K: Keeper>(
    alloc: Global,
    runner: &Runner,
    out: &mut S,
    keeper: &mut K,
) -> Result<RecordEnd, NoMemory>
    ensures lines { AfterLines result (entries_taken runner.now.stage)
        (outlets (S.state out.old) (K.state keeper.old)) (outlets (S.state out.new) (K.state keeper.new)) }
    ensures out_later { IsLater (outlets (S.state out.old) (K.state keeper.old)) (outlets (S.state out.new) (K.state keeper.new)) }
{
    match total_lines(alloc, runner, keeper) {
        Ok(Some(text)) => ending(print(out, &text)),
        Ok(None) => Ok(RecordEnd::KeeperFault),
        Err(e) => Err(e),
    }
}
