//! `record`: the table of a store is opened, and samples that a server sends over a link are put into it.

ghost use Rattle.std.specs.Prelude.{◌≡◌, ◌≤◌, ◌+◌, IfOk};
ghost use Rattle.client_calls.specs.Recording.{CanRecord, record_meant};
ghost use Rattle.sample_store.specs.Keeper.{AreNumbered, Counts};
ghost use Rattle.run_tasks.specs.Fits.{FitsRecord};
ghost use Rattle.run_tasks.specs.Openings.{OpensOne};
ghost use Rattle.run_tasks.specs.RecordAsked.{call_recorded};
ghost use Rattle.client_commands.specs.Between.{EndsBehind, RecordsOver, recording_between};
ghost use Rattle.client_commands.specs.RecordRows.{AddsRows};
ghost use Rattle.client_commands.specs.Recording.{EndsRecorded, EndsRecording, PrintsRecorded};
ghost use Rattle.client_commands.specs.CallUses.{keeper_used, link_used};

use crate::address::CallAddrs;
use crate::call_end::print_answer;
use crate::client_call::{bytes_of, mode_of};
use ads_base::NoMemory;
use ads_outside::{Link, Sink};
use cli_words::Text;
use client_loop::{Names, RecordEnd, RecordSpec, run_record};
use run_tasks::{RecordTask, Status, end_without_memory, print_line};
use sample_store::{Keeper, KeeperOpen};
use std::alloc::Global;

/// How many rows a table may have that more are put into.
const MOST_ROWS: u64 = 9_223_372_036_853_775_807;

/// A client records between these addresses over the link, which is connected to `to`. Nothing but the keeper is called
/// where its table is not opened, or has more than 9,223,372,036,853,775,807 rows.
#[tactic(auto, using(crate::proofs::RecordedRows::adds_none))]
pub fn record_over<L: Link, S: Sink, K: Keeper>(
    alloc: Global,
    what: &RecordTask,
    addrs: CallAddrs,
    to: &str,
    link: &mut L,
    out: &mut S,
    keeper: &mut K,
) -> Status
    requires what { FitsRecord what.now }
    ensures ends { EndsRecording (recording_between what.now addrs to.now) result (S.state out.old) (S.state out.new)
        (link_used L.tells L.state link.old link.new) (keeper_used K.state keeper.old keeper.new) }
    ensures opens { OpensOne result (K.state keeper.old).names (K.state keeper.new).names what.now.store }
    ensures grows { AddsRows (K.state keeper.old).rows (K.state keeper.new).rows }
{
    match keeper.open(what.store.as_str()) {
        KeeperOpen::Ready(rows) => record_behind(alloc, what, addrs, to, rows, link, out, keeper),
        KeeperOpen::Failed => print_line(alloc, Status::KeeperFault, out),
        KeeperOpen::Memory => end_without_memory(out),
    }
}

// The table is open and has so many rows.
#[tactic(auto, using(crate::proofs::RecordedRows::adds_none))]
fn record_behind<L: Link, S: Sink, K: Keeper>(
    alloc: Global,
    what: &RecordTask,
    addrs: CallAddrs,
    to: &str,
    rows: u64,
    link: &mut L,
    out: &mut S,
    keeper: &mut K,
) -> Status
    requires what { FitsRecord what.now }
    requires numbers { AreNumbered (K.state keeper.old).rows }
    requires counts { Counts (KeeperOpen.Ready rows) (K.state keeper.old).rows }
    ensures ends { EndsBehind rows (recording_between what.now addrs to.now) result (S.state out.old) (S.state out.new)
        (link_used L.tells L.state link.old link.new) (K.state keeper.old) (K.state keeper.new) }
    ensures names { (K.state keeper.new).names ≡ (K.state keeper.old).names }
    ensures grows { AddsRows (K.state keeper.old).rows (K.state keeper.new).rows }
{
    if rows <= MOST_ROWS {
        record_into(alloc, what, addrs, to, rows, link, out, keeper)
    } else {
        print_line(alloc, Status::StoreLimit, out)
    }
}

// The table has room.
#[tactic(auto, using(crate::proofs::RecordedRows::adds_none))]
fn record_into<L: Link, S: Sink, K: Keeper>(
    alloc: Global,
    what: &RecordTask,
    addrs: CallAddrs,
    to: &str,
    rows: u64,
    link: &mut L,
    out: &mut S,
    keeper: &mut K,
) -> Status
    requires what { FitsRecord what.now }
    requires room { rows ≤ 9223372036853775807 }
    requires numbers { AreNumbered (K.state keeper.old).rows }
    requires counts { Counts (KeeperOpen.Ready rows) (K.state keeper.old).rows }
    ensures ends { EndsRecorded (RecordsOver (link_used L.tells L.state link.old link.new) (recording_between what.now addrs to.now rows)) result
        (S.state out.old) (S.state out.new) (K.state keeper.old) (K.state keeper.new) }
    ensures names { (K.state keeper.new).names ≡ (K.state keeper.old).names }
    ensures grows { AddsRows (K.state keeper.old).rows (K.state keeper.new).rows }
{
    match names_of(alloc, what.names.as_slice()) {
        Err(NoMemory) => end_without_memory(out),
        Ok(names) => {
            let spec = spec_of(what, rows);
            let answer = run_record(
                alloc,
                &names,
                spec,
                addrs.own,
                addrs.asked,
                to,
                link,
                out,
                keeper,
            );
            print_recorded(alloc, answer, out)
        }
    }
}

// Copies of the names.
fn names_of(alloc: Global, texts: &[Text]) -> Result<Names, NoMemory>
    ensures { IfOk result (λ names. names ≡ texts.now) }
{
    let mut names = Names::new(alloc);
    for text in texts {
        let name = bytes_of(alloc, text)?;
        names.push(alloc, name)?;
    }
    Ok(names)
}

// What is recorded behind so many rows.
fn spec_of(what: &RecordTask, rows: u64) -> RecordSpec
    requires what { FitsRecord what.now }
    requires room { rows ≤ 9223372036853775807 }
    ensures meant { record_meant what.now.names result ≡ call_recorded what.now rows }
    ensures can { CanRecord result }
    ensures first { result.first ≡ rows + 1 }
{
    RecordSpec {
        mode: mode_of(what.change),
        cycle: what.cycle as u32,
        count: what.count as u32,
        first: rows + 1,
    }
}

// Prints the last line of a recording that ended so, and ends with its status.
fn print_recorded<S: Sink>(
    alloc: Global,
    answer: Result<RecordEnd, NoMemory>,
    out: &mut S,
) -> Status
    ensures { PrintsRecorded answer result (S.state out.old) (S.state out.new) }
{
    match answer {
        Ok(RecordEnd::Loop(end)) => print_answer(alloc, Ok(end), out),
        Ok(RecordEnd::KeeperFault) => print_line(alloc, Status::KeeperFault, out),
        Err(NoMemory) => end_without_memory(out),
    }
}
