//! Whether the events of a wire open each connection once.

ghost use Rattle.std.specs.Prelude.{◌≡◌, ◌++◌, [], IsTrue, IfOk, OnOk};
ghost use Rattle.ads_outside.specs.Opened.{opened_by, is_new, are_new};

use ads_base::NoMemory;
use ads_outside::Event;
use std::alloc::Global;

/// Whether no event opens a number that one before it opened.
pub fn open_new(alloc: Global, events: &[Event]) -> Result<bool, NoMemory>
    ensures { IfOk result (λ new. IsTrue new → IsTrue (are_new events.now [])) }
{
    let mut opened: Vec<u32> = Vec::new(alloc);
    for event in events {
        if !is_new(event, opened.as_slice()) {
            return Ok(false);
        }
        note(event, &mut opened)?;
    }
    Ok(true)
}

fn is_new(event: &Event, opened: &[u32]) -> bool
    ensures { result ≡ is_new event.now opened.now }
{
    match event {
        Event::Opened(conn) => !opened.contains(conn),
        Event::Piece(_, _)
        | Event::Closed(_)
        | Event::Tick(_)
        | Event::Reload(_)
        | Event::Writable(_) => true,
    }
}

// The number that an event opens is opened.
fn note(event: &Event, opened: &mut Vec<u32>) -> Result<(), NoMemory>
    ensures { OnOk result (opened.new.items ≡ opened.old.items ++ opened_by event.now) }
{
    match event {
        Event::Opened(conn) => {
            opened.push(*conn)?;
            Ok(())
        }
        Event::Piece(_, _)
        | Event::Closed(_)
        | Event::Tick(_)
        | Event::Reload(_)
        | Event::Writable(_) => Ok(()),
    }
}
