//! Calls of net_routes.

use ads_base::{NetId, NoMemory};
use case_sheets::{Answer, Args, Fault};
use net_routes::{Admission, Routes};
use std::alloc::Global;
use type_layout::{Rights, RouteDesc, Routes4};

pub fn make(
    alloc: Global,
    call: &str,
    args: &mut Args<'_>,
    answer: &mut Answer,
) -> Result<(), Fault> {
    match call {
        "routes" => routes(alloc, args, answer)?,
        "admission" => admission(alloc, args, answer)?,
        _ => return Err(Fault::NoCall),
    }
    Ok(())
}

// Routes, each a NetId and its rights, and behind `ask` NetIds: the rights of each.
fn routes(alloc: Global, args: &mut Args<'_>, answer: &mut Answer) -> Result<(), NoMemory> {
    let list = routes_of(alloc, args)?;
    let routes = Routes::build(alloc, &list)?;
    for _ in 0..usize::MAX {
        if !args.has_more() {
            break;
        }
        answer.say(word_of(routes.rights(args.net())));
    }
    Ok(())
}

// The rights of all others, or `none`; routes, and behind `ask` NetIds: the rights of each.
fn admission(alloc: Global, args: &mut Args<'_>, answer: &mut Answer) -> Result<(), NoMemory> {
    let others = rights_named(args.name());
    let list = routes_of(alloc, args)?;
    let admission = Admission::build(alloc, &list, others)?;
    for _ in 0..usize::MAX {
        if !args.has_more() {
            break;
        }
        answer.say(word_of(admission.rights(args.net())));
    }
    Ok(())
}

fn word_of(rights: Option<Rights>) -> &'static str {
    match rights {
        Some(Rights::Read) => "read",
        Some(Rights::Write) => "write",
        Some(Rights::Control) => "control",
        None => "none",
    }
}

fn routes_of(alloc: Global, args: &mut Args<'_>) -> Result<Routes4, NoMemory> {
    let mut list = Routes4::new(alloc);
    for _ in 0..usize::MAX {
        // The word `ask`, or the end.
        let Some(net) = NetId::read(args.word()) else {
            break;
        };
        let rights = rights_of(args);
        list.push(alloc, RouteDesc { net, rights })?;
    }
    Ok(list)
}

/// The next word as rights.
pub fn rights_of(args: &mut Args<'_>) -> Rights {
    match rights_named(args.name()) {
        Some(rights) => rights,
        None => {
            args.refuse();
            Rights::Read
        }
    }
}

fn rights_named(word: &str) -> Option<Rights> {
    match word {
        "read" => Some(Rights::Read),
        "write" => Some(Rights::Write),
        "control" => Some(Rights::Control),
        _ => None,
    }
}
