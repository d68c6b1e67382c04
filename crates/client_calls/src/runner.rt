//! A call that runs.

ghost use Rattle.std.specs.Prelude.{◌≡◌, ◌<◌, ◌≤◌, ℕ, List, [], false, Some, IfOk, OnOk, OnErr, MatchOption, option_map, slice_get};
ghost use Rattle.ams_header.specs.Header.{address_of};
ghost use Rattle.spec_client.specs.Runner.{new_runner, runner_after_feed, runner_after_tick, turn, is_over};
ghost use Rattle.spec_client.specs.Runner.{Runner as Spec};
ghost use Rattle.spec_client.specs.Stages as stages;
ghost use Rattle.spec_client.specs.Stages.{entries_taken};
ghost use Rattle.spec_formats.specs.SymbolEntry.{SymbolEntry};
ghost use Rattle.client_core.specs.Heard.{heard_meant};
ghost use Rattle.client_replies.specs.Kept.{request_kept};
ghost use Rattle.client_replies.specs.Rows.{HasNumbers};
ghost use Rattle.client_replies.specs.Sound.{HasShortTexts};
ghost use Rattle.client_replies.specs.Stages.{call_meant, end_meant, output_kept};
ghost use Rattle.client_calls.specs.Kept.{hearings_kept, turns_left, with_first};
ghost use Rattle.client_calls.specs.Recording.{AreNames, CanRecord, record_meant};
ghost use Rattle.client_calls.specs.Represents.{StandsFor, IsGoingOn, StandsStill};
ghost use Rattle.client_calls.specs.Sending.{SendsAlone};
ghost use Rattle.client_calls.specs.Steps.{step_meant, UnlessOver, IfGives, IsKeepable, end_in};
ghost use Rattle.client_calls.specs.Turns.{Turns, Gives, Does, Hears, TakesIn};

use crate::hearing::after_heard;
use crate::{CallStep, Names, RecordSpec};
use ads_base::{AmsAddr, NoMemory};
use client_core::{Client, Heard};
use client_replies::{
    Asked, Call, CallEnd, Output, Progress, Stage, Watching, begun, recording_begun,
};
use std::alloc::Global;
use std::collections::VecDeque;
use std::marker::Model;
use std::mem;

/// A call that runs: its client, where it stands, and what it gives before it hears anything more. Contracts speak of
/// every runner of the definitions that it stands for.
#[derive(Drop)]
pub struct Runner {
    client: Client,
    stage: Stage,
    pending: VecDeque<Output>,
}

impl Model for Runner {
    ghost use Rattle.std.specs.Prelude.{map};
    ghost use Rattle.client_replies.specs.Stages.{stage_kept, output_kept};
    ghost use Rattle.client_calls.specs.Kept.{RunnerKept};

    ghost Value = { RunnerKept };

    ghost view = { λ r. record {
      client = r.client;
      stage = stage_kept r.stage;
      pending = map output_kept r.pending.items;
    } };
}

impl Runner {
    /// A call that begins, between this address and that of the device.
    pub fn new(alloc: Global, call: Call, me: AmsAddr, peer: AmsAddr) -> Result<Runner, NoMemory>
        requires { HasShortTexts (call_meant call) }
        ensures { IfOk result (λ r. StandsFor r (new_runner (address_of me) (address_of peer) (call_meant call))) }
    {
        let client = Client::new(alloc, me, peer)?;
        let Progress { stage, outputs } = begun(alloc, call)?;
        Ok(Runner {
            client,
            stage,
            pending: VecDeque::from_vec(outputs.into_vec()),
        })
    }

    /// A recording that begins: of these names, with the rows from a first number on.
    pub fn record(
        alloc: Global,
        names: &Names,
        spec: RecordSpec,
        me: AmsAddr,
        peer: AmsAddr,
    ) -> Result<Runner, NoMemory>
        requires names { AreNames names.now }
        requires spec { CanRecord spec }
        ensures { IfOk result (λ r. StandsFor r (new_runner (address_of me) (address_of peer) (record_meant names.now spec))) }
    {
        let watching = Watching {
            mode: spec.mode,
            cycle: spec.cycle,
            count: spec.count,
        };
        let client = Client::new(alloc, me, peer)?;
        let Progress { stage, outputs } = recording_begun(
            alloc,
            names.as_slice(),
            watching,
            spec.first,
        )?;
        Ok(Runner {
            client,
            stage,
            pending: VecDeque::from_vec(outputs.into_vec()),
        })
    }

    /// The name and the type id of the entry of a recording's name, counted from 0; also behind `Over`.
    #[tactic(auto, using(crate::proofs::EntryAt::entry_at))]
    pub fn entry(&self, n: usize) -> Option<(&[u8], u32)>
        ensures { option_map {U = List ℕ × ℕ} (λ (name, id). (name.now, id)) result
            ≡ option_map (λ (e : SymbolEntry). (e.name, e.type_id)) (slice_get (entries_taken self.now.stage) n) }
    {
        match self.stage.entries().get(n) {
            Some(entry) => Some((entry.name.as_slice(), entry.type_id)),
            None => None,
        }
    }

    /// Bytes came.
    pub fn feed(&mut self, alloc: Global, piece: &[u8]) -> Result<(), NoMemory>
        ensures stands { OnOk result ((r : Spec) → StandsFor self.old r → StandsFor self.new (runner_after_feed r piece.now)) }
        ensures no_memory { OnErr result (StandsStill self.old self.new) }
    {
        self.client.feed(alloc, piece)?;
        Ok(())
    }

    /// A tick of the clock.
    pub fn tick(&mut self, now: u64)
        ensures { (r : Spec) → StandsFor self.old r → StandsFor self.new (runner_after_tick r now) }
    {
        self.client.tick(now);
    }

    /// The call has its turn. After `Over` only its entries are asked for, and after want of memory it is not used again.
    pub fn turn(&mut self, alloc: Global, now: u64) -> Result<CallStep, NoMemory>
        requires { IsGoingOn self.old }
        ensures step { IfOk result (λ step. (r : Spec) → StandsFor self.old r → step_meant step ≡ (turn now r).step) }
        ensures stands { IfOk result (λ step. UnlessOver step ((r : Spec) → StandsFor self.old r → StandsFor self.new (turn now r).runner)) }
        ensures falls { IfOk result (λ step. IfGives step (turns_left self.new < turns_left self.old)) }
        ensures never_rises { OnOk result (turns_left self.new ≤ turns_left self.old) }
        ensures entries { OnOk result ((r : Spec) → StandsFor self.old r
            → entries_taken self.new.stage ≡ entries_taken (turn now r).runner.stage) }
        ensures alone { IfOk result (SendsAlone now self.old) }
        ensures keepable { IfOk result IsKeepable }
    {
        match self.take_turn(alloc, now) {
            Ok(step) => Ok(step),
            Err(e) => Err(e),
        }
    }

    fn take_turn(&mut self, alloc: Global, now: u64) -> Result<CallStep, NoMemory>
        requires { IsGoingOn self.old }
        ensures turned { IfOk result (Turns now self.old self.new) }
        ensures falls { IfOk result (λ step. IfGives step (turns_left self.new < turns_left self.old)) }
        ensures left { OnOk result (turns_left self.new ≤ turns_left self.old) }
    {
        'hearings: loop {
            match self.do_one(alloc, now)? {
                Some(step) => return Ok(step),
                None => {}
            }
        }
    }

    // One thing is given or heard.
    fn do_one(&mut self, alloc: Global, now: u64) -> Result<Option<CallStep>, NoMemory>
        requires { IsGoingOn self.old }
        ensures { IfOk result (Does now self.old self.new) }
    {
        match self.take_first() {
            Some(output) => {
                let step = self.give(alloc, output, now)?;
                Ok(Some(step))
            }
            None => match self.hear(alloc)? {
                Some(step) => Ok(Some(step)),
                None => Ok(None),
            },
        }
    }

    // What is to be given first is taken out.
    fn take_first(&mut self) -> Option<Output>
        ensures { MatchOption result ((self.new ≡ self.old) × (self.old.pending ≡ []))
            (λ output. self.old ≡ with_first (output_kept output) self.new) }
    {
        match self.pending.pop_front() {
            Some(output) => Some(output),
            None => None,
        }
    }

    // The output that was taken out is given.
    fn give(&mut self, alloc: Global, output: Output, now: u64) -> Result<CallStep, NoMemory>
        requires { IsGoingOn (with_first (output_kept output) self.old) }
        ensures turned { IfOk result (Turns now (with_first (output_kept output) self.old) self.new) }
        ensures gives { OnOk result (Gives self.old self.new) }
    {
        match output {
            Output::ToPrint(text) => Ok(CallStep::Print(text)),
            Output::ToKeep(row) => Ok(CallStep::Keep(row)),
            Output::ToSend(asked) => {
                let step = self.send(alloc, &asked, now)?;
                Ok(step)
            }
        }
    }

    // A request is sent.
    fn send(&mut self, alloc: Global, asked: &Asked, now: u64) -> Result<CallStep, NoMemory>
        requires { IsGoingOn (with_first (stages.ToSend (request_kept asked.now)) self.old) }
        ensures turned { IfOk result (Turns now (with_first (stages.ToSend (request_kept asked.now)) self.old) self.new) }
        ensures gives { OnOk result (Gives self.old self.new) }
    {
        let request = asked.as_request();
        match self.client.issue(alloc, &request, now)? {
            Ok(issued) => Ok(CallStep::Send(issued.frame)),
            Err(_) => unreachable!(),
        }
    }

    // Something is heard, where nothing is to be given.
    fn hear(&mut self, alloc: Global) -> Result<Option<CallStep>, NoMemory>
        requires quiet { self.old.pending ≡ [] }
        requires going { IsGoingOn self.old }
        ensures { IfOk result (Hears self.old self.new) }
    {
        match self.take_end() {
            Some(end) => Ok(Some(CallStep::Over(end))),
            None => {
                let step = self.hear_more(alloc)?;
                Ok(step)
            }
        }
    }

    // Something is heard, where the call is not over.
    fn hear_more(&mut self, alloc: Global) -> Result<Option<CallStep>, NoMemory>
        requires quiet { self.old.pending ≡ [] }
        requires going { IsGoingOn self.old }
        requires on { is_over self.old.stage ≡ false }
        ensures { IfOk result (Hears self.old self.new) }
    {
        match self.client.next(alloc)? {
            Heard::NotYet => Ok(Some(CallStep::Wait)),
            Heard::Broken(peer) => Ok(Some(CallStep::Over(CallEnd::BadPeer(peer)))),
            heard => {
                self.take_in(alloc, heard)?;
                Ok(None)
            }
        }
    }

    // The end of a call that is over.
    fn take_end(&mut self) -> Option<CallEnd>
        ensures { MatchOption result ((self.new ≡ self.old) × (is_over self.old.stage ≡ false))
            (λ end. (end_in self.old.stage ≡ Some (end_meant end)) × ((entries_taken self.new.stage ≡ entries_taken self.old.stage)
            × (turns_left self.new ≡ turns_left self.old))) }
    {
        match mem::replace(&mut self.stage, Stage::AwaitsOk) {
            Stage::Finished(end) => Some(end),
            Stage::FinishedRecording(end, entries) => {
                self.stage = Stage::FinishedRecording(CallEnd::Done, entries);
                Some(end)
            }
            stage => {
                self.stage = stage;
                None
            }
        }
    }

    // What was heard is taken in.
    fn take_in(&mut self, alloc: Global, heard: Heard) -> Result<(), NoMemory>
        requires { HasNumbers self.old.stage }
        ensures { OnOk result (TakesIn self.old (heard_meant heard) self.new) }
    {
        let stage = mem::replace(&mut self.stage, Stage::AwaitsOk);
        let Progress { stage, outputs } = after_heard(alloc, stage, heard)?;
        // The number of outputs fits.
        let _count = outputs.len();
        self.stage = stage;
        self.pending = VecDeque::from_vec(outputs.into_vec());
        Ok(())
    }
}
