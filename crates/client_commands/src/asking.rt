//! A client asks a server over the link, or that of a description in the same process.

ghost use Rattle.std.specs.Prelude.{◌<◌, ◌^◌, ◌≡◌, false, true, length};
ghost use Rattle.ads_outside.specs.Rose.{Rose};
ghost use Rattle.run_tasks.specs.BeforeRun.{IsBeforeRun};
ghost use Rattle.run_tasks.specs.Fits.{FitsClient, FitsClientTask};
ghost use Rattle.run_tasks.specs.Readings.{ReadsOfPeer, is_over_link};
ghost use Rattle.client_commands.specs.AskedFrom.{AsksFrom};
ghost use Rattle.client_commands.specs.CallUses.{link_used};

use crate::address::call_addrs;
use crate::ask_link::ask_over;
use crate::ask_locally::ask_locally;
use ads_outside::{Files, Link, Sink};
use cli_words::{ClientWords, PeerWords};
use run_tasks::{ClientTask, Status};
use server_core::Sources;
use std::alloc::Global;
use std::thread::Threads;

/// A client asks whom its words name.
pub fn ask<T: Threads + Sync, F: Files, L: Link, S: Sink, G: Sources>(
    rt: &T,
    alloc: Global,
    what: &ClientTask,
    client: &ClientWords,
    files: &mut F,
    link: &mut L,
    out: &mut S,
    signals: G,
) -> Status
    requires few { length (G.waves signals) < 2 ^ 32 }
    requires what { FitsClientTask what.now }
    requires client { FitsClient client.now }
    ensures ends { AsksFrom (F.state files.old).held (G.waves signals) what.now client.now client.now.peer
        (Rose (F.state files.old).faults (F.state files.new).faults) result (S.state out.old) (S.state out.new)
        (link_used L.tells L.state link.old link.new) }
    ensures reads { ReadsOfPeer client.now.peer result (F.state files.old).names (F.state files.new).names }
    ensures held { (F.state files.new).held ≡ (F.state files.old).held }
    ensures unread { is_over_link client.now.peer ≡ true → files.new ≡ files.old }
    ensures no_link { is_over_link client.now.peer ≡ false → link.new ≡ link.old }
    ensures before_run { IsBeforeRun result → link.new ≡ link.old }
    ensures read_fault { result ≡ Status.ReadFault → Rose (F.state files.old).faults (F.state files.new).faults }
{
    match &client.peer {
        PeerWords::To { to, net } => {
            let addrs = call_addrs(*net, client);
            ask_over(alloc, what, addrs, to.as_str(), link, out)
        }
        PeerWords::Local(description) => ask_locally(
            rt,
            alloc,
            what,
            client,
            description,
            files,
            out,
            signals,
        ),
    }
}
