//! The requests of a load, and the ticks behind each tenth.

ghost use Rattle.std.specs.Prelude.{◌≡◌, ◌≤◌, ◌<◌, ◌+◌, ◌*◌, ◌/◌, ◌%◌, ◌==◌, ◌++◌, OnOk, if◌then◌else◌};
ghost use Rattle.std.specs.Int.{w32, to_le_bytes};
ghost use Rattle.spec_formats.specs.Request.{Read, Write};
ghost use Rattle.load_maker.specs.MadeLines.{line_text, script_text};
ghost use Rattle.load_maker.specs.LoadScript.{DATA, request_line, turn_request, tick_lines, turn_of, first_turns};

use crate::lines::put_tick;
use crate::numbers::{READ, READ_LEN, SYMBOL_LEN, TICK, WRITE, WRITE_LEN};
use crate::requests::put_request_line;
use crate::room::Room;
use ads_base::{NoMemory, Octets};
use ads_commands::Request;
use index_groups::PROCESS_BYTES;
use std::alloc::Global;

/// Appends the lines of `n` requests, as the row of numbers says that begins with `n`.
pub fn put_turns(alloc: Global, out: &mut Octets, n: u32) -> Result<(), NoMemory>
    requires { n ≤ 100000 }
    ensures { OnOk result (out.new ≡ out.old ++ script_text (first_turns n n)) }
{
    let mut room = Room::new(alloc);
    let mut x = u64::from(n);
    for i in 0..n {
        x = next_number(x);
        put_turn(alloc, &mut room, out, x, i + 1)?;
    }
    Ok(())
}

fn next_number(x: u64) -> u64
    requires { x < 2147483648 }
    ensures next { result ≡ (x * 1103515245 + 12345) % 2147483648 }
    ensures small { result < 2147483648 }
{
    (x * 1_103_515_245 + 12_345) % 2_147_483_648
}

// The i-th request, whose number is x, and the tick behind it.
fn put_turn(
    alloc: Global,
    room: &mut Room,
    out: &mut Octets,
    x: u64,
    i: u32,
) -> Result<(), NoMemory>
    requires { i ≤ 100000 }
    ensures { OnOk result (out.new ≡ out.old ++ script_text (turn_of x i)) }
{
    put_access(alloc, room, out, x, i)?;
    put_tenth(alloc, out, i)?;
    Ok(())
}

fn put_tenth(alloc: Global, out: &mut Octets, i: u32) -> Result<(), NoMemory>
    requires { i ≤ 100000 }
    ensures { OnOk result (out.new ≡ out.old ++ script_text (tick_lines i)) }
{
    if i % 10 == 0 {
        put_tick(alloc, out, TICK * u64::from(i))
    } else {
        Ok(())
    }
}

fn put_access(
    alloc: Global,
    room: &mut Room,
    out: &mut Octets,
    x: u64,
    i: u32,
) -> Result<(), NoMemory>
    requires { i ≤ 100000 }
    ensures { OnOk result (out.new ≡ out.old ++ line_text (request_line (x % 4 + 1) (10 + i) (turn_request x i))) }
{
    let client = (x % 4) as u8 + 1;
    let symbol = (x / 4 % 100) as u32;
    if x / 400 % 2 == 0 {
        put_read(alloc, room, out, client, symbol, i)
    } else {
        put_write(alloc, room, out, client, symbol, i)
    }
}

fn put_read(
    alloc: Global,
    room: &mut Room,
    out: &mut Octets,
    client: u8,
    symbol: u32,
    i: u32,
) -> Result<(), NoMemory>
    requires few { symbol < 100 }
    requires short { i ≤ 100000 }
    ensures { OnOk result (out.new ≡ out.old ++ line_text (request_line client (10 + i) (Read DATA (4 * symbol) 4))) }
{
    let request = Request::Read {
        group: PROCESS_BYTES,
        offset: SYMBOL_LEN * symbol,
        len: SYMBOL_LEN,
    };
    put_request_line(alloc, room, out, client, 10 + i, READ, READ_LEN, &request)
}

fn put_write(
    alloc: Global,
    room: &mut Room,
    out: &mut Octets,
    client: u8,
    symbol: u32,
    i: u32,
) -> Result<(), NoMemory>
    requires few { symbol < 100 }
    requires short { i ≤ 100000 }
    ensures { OnOk result (out.new ≡ out.old ++ line_text (request_line client (10 + i) (Write DATA (4 * symbol) (to_le_bytes w32 i)))) }
{
    let value = i.to_le_bytes();
    let request = Request::Write {
        group: PROCESS_BYTES,
        offset: SYMBOL_LEN * symbol,
        bytes: &value,
    };
    put_request_line(alloc, room, out, client, 10 + i, WRITE, WRITE_LEN, &request)
}
