//! Calls of sym_handles.

use ads_base::NoMemory;
use case_plants::{is_in_old_world, moves, place, say_place};
use case_sheets::{Answer, Args, Fault};
use std::alloc::Global;
use sym_handles::{Full, Handles};
use symbol_table::{KeptList, Moves, Place};
use type_layout::Area;

pub fn make(
    alloc: Global,
    handles: &mut Handles,
    call: &str,
    args: &mut Args<'_>,
    answer: &mut Answer,
) -> Result<(), Fault> {
    match call {
        "new" => {
            *handles = Handles::new(alloc)?;
            answer.say("ok");
        }
        "grant" => say_granted(handles.grant(alloc, args.u16(), place(args))?, answer),
        "fill" => fill(alloc, handles, args.u32(), answer)?,
        "look" => look(handles, args.u32(), args.u16(), answer),
        "looks" => looks(handles, args.u16(), answer),
        "release" => match handles.release(args.u32(), args.u16()) {
            Ok(()) => answer.say("ok"),
            Err(code) => answer.tell_code(code.number()),
        },
        "moved" => moved(alloc, handles, args, answer)?,
        "moved_away" => {
            handles.moved(&Moves::build(alloc, &KeptList::new(alloc))?);
            answer.say("ok");
        }
        _ => return Err(Fault::NoCall),
    }
    Ok(())
}

fn say_granted(granted: Result<u32, Full>, answer: &mut Answer) {
    match granted {
        Ok(handle) => answer.tell(u64::from(handle)),
        Err(Full) => answer.say("full"),
    }
}

// So many handles of port 851: the last one.
fn fill(
    alloc: Global,
    handles: &mut Handles,
    count: u32,
    answer: &mut Answer,
) -> Result<(), NoMemory> {
    let place = Place {
        symbol: 0,
        area: Area::Process,
        at: 0,
        len: 4,
    };
    let mut last = Err(Full);
    for _ in 0..count {
        last = handles.grant(alloc, 851, place)?;
    }
    say_granted(last, answer);
    Ok(())
}

fn look(handles: &Handles, handle: u32, port: u16, answer: &mut Answer) {
    match handles.look(handle, port) {
        Ok(place) => say_place(&place, answer),
        Err(code) => answer.tell_code(code.number()),
    }
}

// The handles 0 to 5 and the greatest number, looked up one after another.
fn looks(handles: &Handles, port: u16, answer: &mut Answer) {
    for handle in [0, 1, 2, 3, 4, 5, u32::MAX] {
        look(handles, handle, port, answer);
        answer.say("|");
    }
}

// PORT PLACE PORT PLACE: a new table grants these two handles, and then there is the reload of the cases.
fn moved(
    alloc: Global,
    handles: &mut Handles,
    args: &mut Args<'_>,
    answer: &mut Answer,
) -> Result<(), NoMemory> {
    let first_port = args.u16();
    let first = place(args);
    let second_port = args.u16();
    let second = place(args);
    if !is_in_old_world(first_port, &first) || !is_in_old_world(second_port, &second) {
        args.refuse();
        return Ok(());
    }
    let moves = moves(alloc)?;
    *handles = Handles::new(alloc)?;
    let Ok(one) = handles.grant(alloc, first_port, first)? else {
        return Ok(());
    };
    let Ok(other) = handles.grant(alloc, second_port, second)? else {
        return Ok(());
    };
    handles.moved(&moves);
    answer.tell(u64::from(one));
    answer.tell(u64::from(other));
    Ok(())
}
