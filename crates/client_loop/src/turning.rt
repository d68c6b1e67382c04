//! The turns of a call at a moment: what it gives is sent and put.

ghost use Rattle.std.specs.Prelude.{◌≡◌, ◌≤◌, ◌<◌, ◌^◌, ℕ, List, IfOk, MatchOption};
ghost use Rattle.ads_outside.specs.LinkState.{LinkNeverFalls};
ghost use Rattle.ads_outside.specs.SinkState.{NeverFalls};
ghost use Rattle.spec_client.specs.Runner.{Runner as Spec};
ghost use Rattle.client_calls.specs.Kept.{turns_left};
ghost use Rattle.sample_store.specs.Keeper.{IsNext};
ghost use Rattle.sample_store.specs.Views.{row_kept};
ghost use Rattle.client_calls.specs.Represents.{StandsFor};
ghost use Rattle.client_loop.specs.Outlets.{outlets, IsLater};
ghost use Rattle.client_loop.specs.Ready.{IsReady};
ghost use Rattle.client_loop.specs.Turning.{AfterTurn, AfterTurns, AfterSend, AfterPut, AfterKeep, AfterSettle, IfWaits, UnlessTurned};

use ads_base::{NoMemory, Octets};
use ads_outside::{Link, Put, Sent, Sink};
use client_calls::{CallEnd, CallStep, Runner};
use sample_store::{Keeper, Kept, Row};
use std::alloc::Global;

/// What became of the turns of a call.
#[derive(Drop)]
pub(crate) enum Turned {
    /// The call waits for more.
    Waits,
    Over(CallEnd),
    LinkFault,
    WriteFault,
    KeeperFault,
}

/// All turns of a call at a moment, up to a wait or its end. Whichever it is, the rows are brought to where they stay behind it.
pub(crate) fn take_turns<L: Link, S: Sink, K: Keeper>(
    alloc: Global,
    runner: &mut Runner,
    link: &mut L,
    out: &mut S,
    keeper: &mut K,
    now: u64,
) -> Result<Turned, NoMemory>
    requires { IsReady runner.old (K.state keeper.old).rows }
    ensures turns { (r : Spec) (n : ℕ) → StandsFor runner.old r → AfterTurns result now runner.new
        (L.tells link.old) (L.tells link.new) (L.state link.old) (L.state link.new)
        (outlets (S.state out.old) (K.state keeper.old)) (outlets (S.state out.new) (K.state keeper.new)) n r }
    ensures ready { IfWaits result (IsReady runner.new (K.state keeper.new).rows) }
    ensures same { (L.state link.new).history ≡ (L.state link.old).history }
    ensures link_later { LinkNeverFalls (L.state link.old) (L.state link.new) }
    ensures out_later { IsLater (outlets (S.state out.old) (K.state keeper.old)) (outlets (S.state out.new) (K.state keeper.new)) }
{
    match give_turns(alloc, runner, link, out, keeper, now) {
        Ok(turned) => settle_behind(keeper, turned),
        Err(e) => Err(e),
    }
}

// All turns; the keeper may gather their rows.
fn give_turns<L: Link, S: Sink, K: Keeper>(
    alloc: Global,
    runner: &mut Runner,
    link: &mut L,
    out: &mut S,
    keeper: &mut K,
    now: u64,
) -> Result<Turned, NoMemory>
    requires { IsReady runner.old (K.state keeper.old).rows }
    ensures turns { (r : Spec) (n : ℕ) → StandsFor runner.old r → AfterTurns result now runner.new
        (L.tells link.old) (L.tells link.new) (L.state link.old) (L.state link.new)
        (outlets (S.state out.old) (K.state keeper.old)) (outlets (S.state out.new) (K.state keeper.new)) n r }
    ensures ready { IfWaits result (IsReady runner.new (K.state keeper.new).rows) }
    ensures same { (L.state link.new).history ≡ (L.state link.old).history }
    ensures link_later { LinkNeverFalls (L.state link.old) (L.state link.new) }
    ensures out_later { IsLater (outlets (S.state out.old) (K.state keeper.old)) (outlets (S.state out.new) (K.state keeper.new)) }
{
    'turns: loop {
        match take_turn(alloc, runner, link, out, keeper, now) {
            Ok(None) => {}
            Ok(Some(turned)) => return Ok(turned),
            Err(e) => return Err(e),
        }
    }
}

// The rows of turns that ended so are brought to where they stay.
fn settle_behind<K: Keeper>(keeper: &mut K, turned: Turned) -> Result<Turned, NoMemory>
    ensures settled { AfterSettle result turned (K.state keeper.old) (K.state keeper.new) }
    ensures rows { (K.state keeper.new).rows ≡ (K.state keeper.old).rows }
    ensures names { (K.state keeper.new).names ≡ (K.state keeper.old).names }
    ensures keeper_later { (K.state keeper.old).faults ≤ (K.state keeper.new).faults }
{
    match keeper.settle() {
        Kept::Done => Ok(turned),
        Kept::Failed => Ok(Turned::KeeperFault),
        Kept::Memory => Err(NoMemory),
    }
}

// One turn; nothing is told of it where something was given.
fn take_turn<L: Link, S: Sink, K: Keeper>(
    alloc: Global,
    runner: &mut Runner,
    link: &mut L,
    out: &mut S,
    keeper: &mut K,
    now: u64,
) -> Result<Option<Turned>, NoMemory>
    requires { IsReady runner.old (K.state keeper.old).rows }
    ensures turn { (r : Spec) (n : ℕ) → StandsFor runner.old r → AfterTurn result now runner.new
        (L.tells link.old) (L.tells link.new) (L.state link.old) (L.state link.new)
        (outlets (S.state out.old) (K.state keeper.old)) (outlets (S.state out.new) (K.state keeper.new)) n r }
    ensures falls { IfOk result (λ told. MatchOption told (turns_left runner.new < turns_left runner.old) (λ turned. Unit {0})) }
    ensures ready { UnlessTurned result (IsReady runner.new (K.state keeper.new).rows) }
    ensures same { (L.state link.new).history ≡ (L.state link.old).history }
    ensures link_later { LinkNeverFalls (L.state link.old) (L.state link.new) }
    ensures out_later { IsLater (outlets (S.state out.old) (K.state keeper.old)) (outlets (S.state out.new) (K.state keeper.new)) }
{
    match runner.turn(alloc, now) {
        Ok(CallStep::Send(bytes)) => send(link, &bytes),
        Ok(CallStep::Print(text)) => print(out, &text),
        Ok(CallStep::Keep(row)) => keep(keeper, &row),
        Ok(CallStep::Wait) => Ok(Some(Turned::Waits)),
        Ok(CallStep::Over(end)) => Ok(Some(Turned::Over(end))),
        Err(e) => Err(e),
    }
}

// Bytes are sent.
fn send<L: Link>(link: &mut L, bytes: &Octets) -> Result<Option<Turned>, NoMemory>
    ensures sent { AfterSend result (L.tells link.old) (L.tells link.new) (L.state link.old) (L.state link.new) bytes.now }
    ensures same { (L.state link.new).history ≡ (L.state link.old).history }
    ensures link_later { LinkNeverFalls (L.state link.old) (L.state link.new) }
{
    match link.send(bytes.as_slice()) {
        Sent::All => Ok(None),
        Sent::Failed => Ok(Some(Turned::LinkFault)),
        Sent::Memory => Err(NoMemory),
    }
}

/// A text is put, if it is not empty.
pub(crate) fn print<S: Sink>(out: &mut S, text: &Octets) -> Result<Option<Turned>, NoMemory>
    ensures put { AfterPut result (S.state out.old) (S.state out.new) text.now }
    ensures out_later { NeverFalls (S.state out.old) (S.state out.new) }
{
    if text.len() == 0 {
        return Ok(None);
    }
    match out.put(text.as_slice()) {
        Put::All => Ok(None),
        Put::Failed => Ok(Some(Turned::WriteFault)),
        Put::Memory => Err(NoMemory),
    }
}

// A row is put.
fn keep<K: Keeper>(keeper: &mut K, row: &Row) -> Result<Option<Turned>, NoMemory>
    requires some { 0 < row.now.number }
    requires most { row.now.number < 2 ^ 63 }
    requires next { IsNext (K.state keeper.old).rows row.now.number }
    ensures kept { AfterKeep result (K.state keeper.old) (K.state keeper.new) (row_kept row.now) }
    ensures names { (K.state keeper.new).names ≡ (K.state keeper.old).names }
    ensures keeper_later { (K.state keeper.old).faults ≤ (K.state keeper.new).faults }
{
    match keeper.put(row) {
        Kept::Done => Ok(None),
        Kept::Failed => Ok(Some(Turned::KeeperFault)),
        Kept::Memory => Err(NoMemory),
    }
}
