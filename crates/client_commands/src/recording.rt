//! `record`, from a server over the link or from that of a description in the same process.

ghost use Rattle.std.specs.Prelude.{◌<◌, ◌^◌, ◌≡◌, false, true, length};
ghost use Rattle.ads_outside.specs.Rose.{Rose};
ghost use Rattle.run_tasks.specs.BeforeRun.{IsBeforeRun};
ghost use Rattle.run_tasks.specs.Fits.{FitsRecord};
ghost use Rattle.run_tasks.specs.Openings.{OpensOne};
ghost use Rattle.run_tasks.specs.Readings.{ReadsOfPeer, is_over_link};
ghost use Rattle.client_commands.specs.RecordRows.{AddsRows};
ghost use Rattle.client_commands.specs.RecordedFrom.{RecordsFrom};
ghost use Rattle.client_commands.specs.CallUses.{keeper_used, link_used};

use crate::address::call_addrs;
use crate::record_link::record_over;
use crate::record_locally::record_locally;
use ads_outside::{Files, Link, Sink};
use cli_words::PeerWords;
use run_tasks::{RecordTask, Status};
use sample_store::Keeper;
use server_core::Sources;
use std::alloc::Global;
use std::thread::Threads;

/// A client records from whom its words name. Neither a wire nor a disk is called, whatever they are.
pub fn record<T: Threads + Sync, F: Files, L: Link, S: Sink, K: Keeper, G: Sources>(
    rt: &T,
    alloc: Global,
    what: &RecordTask,
    files: &mut F,
    link: &mut L,
    out: &mut S,
    keeper: &mut K,
    signals: G,
) -> Status
    requires few { length (G.waves signals) < 2 ^ 32 }
    requires what { FitsRecord what.now }
    ensures ends { RecordsFrom (F.state files.old).held (G.waves signals) what.now what.now.client.peer
        (Rose (F.state files.old).faults (F.state files.new).faults) result (S.state out.old) (S.state out.new)
        (link_used L.tells L.state link.old link.new) (keeper_used K.state keeper.old keeper.new) }
    ensures reads { ReadsOfPeer what.now.client.peer result (F.state files.old).names (F.state files.new).names }
    ensures held { (F.state files.new).held ≡ (F.state files.old).held }
    ensures unread { is_over_link what.now.client.peer ≡ true → files.new ≡ files.old }
    ensures no_link { is_over_link what.now.client.peer ≡ false → link.new ≡ link.old }
    ensures opens { OpensOne result (K.state keeper.old).names (K.state keeper.new).names what.now.store }
    ensures grows { AddsRows (K.state keeper.old).rows (K.state keeper.new).rows }
    ensures before_run { IsBeforeRun result → (link.new ≡ link.old) × (keeper.new ≡ keeper.old) }
    ensures read_fault { result ≡ Status.ReadFault → Rose (F.state files.old).faults (F.state files.new).faults }
{
    match &what.client.peer {
        PeerWords::To { to, net } => {
            let addrs = call_addrs(*net, &what.client);
            record_over(alloc, what, addrs, to.as_str(), link, out, keeper)
        }
        PeerWords::Local(description) => record_locally(
            rt,
            alloc,
            what,
            description,
            files,
            out,
            keeper,
            signals,
        ),
    }
}
