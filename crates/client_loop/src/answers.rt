//! What a link gives next, heard by a call.

ghost use Rattle.std.specs.Prelude.{◌≡◌, ◌<◌, length, IfOk, IsSome};
ghost use Rattle.ads_outside.specs.LinkState.{LinkNeverFalls};
ghost use Rattle.client_loop.specs.Ready.{ReadyStill};
ghost use Rattle.client_loop.specs.Hearing.{AfterComing};

use ads_base::NoMemory;
use ads_outside::{Link, Received};
use client_calls::Runner;
use std::alloc::Global;

/// An answer of a link that was heard, with its moment.
#[derive(Clone, Copy)]
pub(crate) enum Came {
    /// Bytes came.
    Bytes(u64),
    /// Nothing came for a while.
    Quiet(u64),
    /// The peer closed the connection.
    Closed(u64),
}

/// What comes next is heard; nothing, where the link failed.
pub(crate) fn take_in<L: Link>(
    alloc: Global,
    runner: &mut Runner,
    link: &mut L,
    buf: &mut [u8],
) -> Result<Option<Came>, NoMemory>
    requires room { 0 < length buf.old }
    ensures comes { AfterComing result runner.old runner.new (L.tells link.old) (L.tells link.new) (L.state link.old) (L.state link.new) }
    ensures ready { IfOk result (λ came. IsSome came → ReadyStill runner.old runner.new) }
    ensures link_later { LinkNeverFalls (L.state link.old) (L.state link.new) }
{
    match link.recv(buf) {
        Received::Bytes(n, now) => {
            runner.tick(now);
            match runner.feed(alloc, &buf[..n as usize]) {
                Ok(()) => Ok(Some(Came::Bytes(now))),
                Err(e) => Err(e),
            }
        }
        Received::Quiet(now) => {
            runner.tick(now);
            Ok(Some(Came::Quiet(now)))
        }
        Received::Closed(now) => {
            runner.tick(now);
            Ok(Some(Came::Closed(now)))
        }
        Received::Failed => Ok(None),
        Received::Memory => Err(NoMemory),
    }
}
