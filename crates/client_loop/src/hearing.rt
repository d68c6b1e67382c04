//! Answers of a link, one after another, each with the turns behind it.

ghost use Rattle.std.specs.Prelude.{◌≡◌, ◌<◌, length, IfOk};
ghost use Rattle.ads_outside.specs.LinkState.{LinkNeverFalls};
ghost use Rattle.spec_client.specs.Conversation.{Conversation, MAX_QUIET};
ghost use Rattle.client_loop.specs.Outlets.{outlets, IsLater};
ghost use Rattle.client_loop.specs.Ready.{IsReady};
ghost use Rattle.client_loop.specs.Hearing.{AfterRound, EndsOver, TurnsBehind, IsAt, IsBegun, IfGoes, moment_in, waits_behind};

use crate::answers::{Came, take_in};
use crate::turning::{Turned, take_turns};
use crate::{LoopEnd, RecordEnd};
use ads_base::{NoMemory, Peer};
use ads_outside::{Link, Sink};
use client_calls::{CallEnd, Runner};
use sample_store::Keeper;
use std::alloc::Global;

/// What became of an answer.
#[derive(Drop)]
pub(crate) enum Heard {
    /// The call goes on; so many answers in a row were `Quiet`.
    Goes(u32),
    Ends(RecordEnd),
}

/// A call hears what the link gives, and takes its turns, until it ends.
pub(crate) fn hear_all<L: Link, S: Sink, K: Keeper>(
    alloc: Global,
    runner: &mut Runner,
    link: &mut L,
    out: &mut S,
    keeper: &mut K,
) -> Result<RecordEnd, NoMemory>
    requires { IsReady runner.old (K.state keeper.old).rows }
    ensures ends { (c : Conversation) → IsBegun runner.old c → EndsOver result c runner.new (L.tells link.old) (L.tells link.new)
        (L.state link.old) (L.state link.new) (outlets (S.state out.old) (K.state keeper.old)) (outlets (S.state out.new) (K.state keeper.new)) }
    ensures link_later { LinkNeverFalls (L.state link.old) (L.state link.new) }
    ensures out_later { IsLater (outlets (S.state out.old) (K.state keeper.old)) (outlets (S.state out.new) (K.state keeper.new)) }
{
    match empty_buffer(alloc) {
        Ok(mut buffer) => hear_each(alloc, runner, link, out, keeper, buffer.as_mut_slice()),
        Err(e) => Err(e),
    }
}

// A buffer of 65,536 bytes.
fn empty_buffer(alloc: Global) -> Result<Vec<u8>, NoMemory>
    ensures { IfOk result (λ buffer. 0 < length buffer.items) }
{
    let buffer = Vec::from_elem(alloc, 0u8, 65_536)?;
    Ok(buffer)
}

// One answer after another, into a buffer.
fn hear_each<L: Link, S: Sink, K: Keeper>(
    alloc: Global,
    runner: &mut Runner,
    link: &mut L,
    out: &mut S,
    keeper: &mut K,
    buf: &mut [u8],
) -> Result<RecordEnd, NoMemory>
    requires room { 0 < length buf.old }
    requires ready { IsReady runner.old (K.state keeper.old).rows }
    ensures ends { (c : Conversation) → IsBegun runner.old c → EndsOver result c runner.new (L.tells link.old) (L.tells link.new)
        (L.state link.old) (L.state link.new) (outlets (S.state out.old) (K.state keeper.old)) (outlets (S.state out.new) (K.state keeper.new)) }
    ensures link_later { LinkNeverFalls (L.state link.old) (L.state link.new) }
    ensures out_later { IsLater (outlets (S.state out.old) (K.state keeper.old)) (outlets (S.state out.new) (K.state keeper.new)) }
{
    let mut quiet: u32 = 0;
    for _heard in 0..10_000_000_000_000u64 {
        match hear(alloc, runner, link, out, keeper, buf, quiet) {
            Ok(Heard::Goes(in_a_row)) => quiet = in_a_row,
            Ok(Heard::Ends(end)) => return Ok(end),
            Err(e) => return Err(e),
        }
    }
    Ok(RecordEnd::Loop(LoopEnd::Budget))
}

// One answer, and the turns behind it.
fn hear<L: Link, S: Sink, K: Keeper>(
    alloc: Global,
    runner: &mut Runner,
    link: &mut L,
    out: &mut S,
    keeper: &mut K,
    buf: &mut [u8],
    quiet: u32,
) -> Result<Heard, NoMemory>
    requires room { 0 < length buf.old }
    requires ready { IsReady runner.old (K.state keeper.old).rows }
    requires few { quiet < MAX_QUIET }
    ensures round { (c : Conversation) → IsAt runner.old quiet c → AfterRound result c runner.new
        (L.tells link.old) (L.tells link.new) (L.state link.old) (L.state link.new)
        (outlets (S.state out.old) (K.state keeper.old)) (outlets (S.state out.new) (K.state keeper.new)) }
    ensures ready { IfGoes result (λ in_a_row. IsReady runner.new (K.state keeper.new).rows) }
    ensures few { IfGoes result (λ in_a_row. in_a_row < MAX_QUIET) }
    ensures link_later { LinkNeverFalls (L.state link.old) (L.state link.new) }
    ensures out_later { IsLater (outlets (S.state out.old) (K.state keeper.old)) (outlets (S.state out.new) (K.state keeper.new)) }
{
    match take_in(alloc, runner, link, buf) {
        Ok(Some(came)) => turn_behind(alloc, runner, link, out, keeper, came, quiet),
        Ok(None) => Ok(Heard::Ends(RecordEnd::Loop(LoopEnd::LinkFault))),
        Err(e) => Err(e),
    }
}

// The turns behind an answer.
fn turn_behind<L: Link, S: Sink, K: Keeper>(
    alloc: Global,
    runner: &mut Runner,
    link: &mut L,
    out: &mut S,
    keeper: &mut K,
    came: Came,
    quiet: u32,
) -> Result<Heard, NoMemory>
    requires ready { IsReady runner.old (K.state keeper.old).rows }
    requires few { quiet < MAX_QUIET }
    ensures turns { TurnsBehind result came quiet runner.old runner.new (L.tells link.old) (L.tells link.new)
        (L.state link.old) (L.state link.new) (outlets (S.state out.old) (K.state keeper.old)) (outlets (S.state out.new) (K.state keeper.new)) }
    ensures ready { IfGoes result (λ in_a_row. IsReady runner.new (K.state keeper.new).rows) }
    ensures few { IfGoes result (λ in_a_row. in_a_row < MAX_QUIET) }
    ensures same { (L.state link.new).history ≡ (L.state link.old).history }
    ensures link_later { LinkNeverFalls (L.state link.old) (L.state link.new) }
    ensures out_later { IsLater (outlets (S.state out.old) (K.state keeper.old)) (outlets (S.state out.new) (K.state keeper.new)) }
{
    match take_turns(alloc, runner, link, out, keeper, moment_of(came)) {
        Ok(Turned::Waits) => Ok(after_wait(came, quiet)),
        Ok(Turned::Over(end)) => Ok(Heard::Ends(RecordEnd::Loop(LoopEnd::Call(end)))),
        Ok(Turned::LinkFault) => Ok(Heard::Ends(RecordEnd::Loop(LoopEnd::LinkFault))),
        Ok(Turned::WriteFault) => Ok(Heard::Ends(RecordEnd::Loop(LoopEnd::WriteFault))),
        Ok(Turned::KeeperFault) => Ok(Heard::Ends(RecordEnd::KeeperFault)),
        Err(e) => Err(e),
    }
}

fn moment_of(came: Came) -> u64
    ensures { result ≡ moment_in came }
{
    match came {
        Came::Bytes(now) | Came::Quiet(now) | Came::Closed(now) => now,
    }
}

// A call that waits behind an answer.
fn after_wait(came: Came, quiet: u32) -> Heard
    requires { quiet < MAX_QUIET }
    ensures { result ≡ waits_behind came quiet }
{
    match came {
        Came::Bytes(_) => Heard::Goes(0),
        Came::Quiet(_) => {
            if quiet + 1 == 1_000_000 {
                Heard::Ends(RecordEnd::Loop(LoopEnd::Budget))
            } else {
                Heard::Goes(quiet + 1)
            }
        }
        Came::Closed(_) => {
            Heard::Ends(RecordEnd::Loop(LoopEnd::Call(CallEnd::BadPeer(Peer::Closed))))
        }
    }
}
