//! The notifications of the clients.

ghost use Rattle.std.specs.Prelude.{◌≡◌, ◌≤◌, ◌<◌, ◌++◌, flat_map, OnOk};
ghost use Rattle.load_maker.specs.MadeLines.{line_text, script_text};
ghost use Rattle.load_maker.specs.LoadScript.{clients, watch_line, watch_lines};

use crate::numbers::{ADD, ADD_LEN, ON_CHANGE, SYMBOL_LEN};
use crate::requests::put_request_line;
use crate::room::Room;
use ads_base::{NoMemory, Octets};
use ads_commands::Request;
use index_groups::PROCESS_BYTES;
use std::alloc::Global;

/// Appends the lines in which the four clients watch ten values each.
pub fn put_watches(alloc: Global, out: &mut Octets) -> Result<(), NoMemory>
    ensures { OnOk result (out.new ≡ out.old ++ script_text (flat_map watch_lines clients)) }
{
    let mut room = Room::new(alloc);
    put_watches_of(alloc, &mut room, out, 1)?;
    put_watches_of(alloc, &mut room, out, 2)?;
    put_watches_of(alloc, &mut room, out, 3)?;
    put_watches_of(alloc, &mut room, out, 4)?;
    Ok(())
}

fn put_watches_of(
    alloc: Global,
    room: &mut Room,
    out: &mut Octets,
    client: u8,
) -> Result<(), NoMemory>
    requires some { 0 < client }
    requires four { client ≤ 4 }
    ensures { OnOk result (out.new ≡ out.old ++ script_text (watch_lines client)) }
{
    for j in 0..10 {
        put_watch(alloc, room, out, client, j)?;
    }
    Ok(())
}

fn put_watch(
    alloc: Global,
    room: &mut Room,
    out: &mut Octets,
    client: u8,
    j: u32,
) -> Result<(), NoMemory>
    requires some { 0 < client }
    requires four { client ≤ 4 }
    requires few { j < 10 }
    ensures { OnOk result (out.new ≡ out.old ++ line_text (watch_line client j)) }
{
    let request = Request::Add {
        group: PROCESS_BYTES,
        offset: SYMBOL_LEN * (25 * (u32::from(client) - 1) + j),
        len: SYMBOL_LEN,
        mode: ON_CHANGE,
        delay: 0,
        cycle: 0,
    };
    put_request_line(alloc, room, out, client, j + 1, ADD, ADD_LEN, &request)
}
