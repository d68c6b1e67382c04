//! Calls of ads_commands.

ghost use Rattle.std.specs.Prelude.{◌≤◌, length};

use super::{replies, requests};
use ads_base::Octets;
use case_sheets::{Answer, Args, Fault};
use std::alloc::Global;

// The greatest length of the data of a payload that is written.
const GREATEST_DATA: usize = 2_000_000;

pub fn make(
    alloc: Global,
    call: &str,
    args: &mut Args<'_>,
    answer: &mut Answer,
) -> Result<(), Fault> {
    match call {
        "read_request" => requests::request_read(args, answer),
        "put_request" => requests::request_put(alloc, args, answer)?,
        "read_reply" => replies::reply_read(args, answer),
        "put_reply" => replies::reply_put(alloc, args, answer)?,
        _ => return Err(Fault::NoCall),
    }
    Ok(())
}

/// The data that the next word writes, which is short enough for a payload.
pub fn data_of(alloc: Global, args: &mut Args<'_>) -> Octets
    ensures { length result ≤ 2000000 }
{
    let data = args.octets();
    if data.len() <= GREATEST_DATA {
        return data;
    }
    args.refuse();
    Octets::new(alloc)
}
