//! A client asks a server over a link.

ghost use Rattle.run_tasks.specs.Fits.{FitsClientTask};
ghost use Rattle.client_commands.specs.Between.{asking_between};
ghost use Rattle.client_commands.specs.Calling.{EndsCall};
ghost use Rattle.client_commands.specs.CallUses.{link_used};

use crate::address::CallAddrs;
use crate::call_end::print_answer;
use crate::client_call::call_of;
use ads_base::NoMemory;
use ads_outside::{Link, Sink};
use client_loop::run_call;
use run_tasks::{ClientTask, Status, end_without_memory};
use std::alloc::Global;

/// A client asks between these addresses over the link, which is connected to `to`.
pub fn ask_over<L: Link, S: Sink>(
    alloc: Global,
    what: &ClientTask,
    addrs: CallAddrs,
    to: &str,
    link: &mut L,
    out: &mut S,
) -> Status
    requires what { FitsClientTask what.now }
    ensures ends { EndsCall (asking_between what.now addrs to.now) result (S.state out.old) (S.state out.new)
        (link_used L.tells L.state link.old link.new) }
{
    match call_of(alloc, what) {
        Err(NoMemory) => end_without_memory(out),
        Ok(call) => {
            let answer = run_call(alloc, call, addrs.own, addrs.asked, to, link, out);
            print_answer(alloc, answer, out)
        }
    }
}
