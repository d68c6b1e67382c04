//! What a line of a script says.

ghost use Rattle.std.specs.Prelude.{◌≡◌, IfOk};
ghost use Rattle.ads_outside.specs.declared.event.Event.TheVariants as event;

use ads_base::NoMemory;
use ads_outside::Event;
use std::alloc::Global;
use std::mem;

/// What a line of a script says: an event, or how a connection answers the offers to it.
#[derive(Debug, Drop)]
pub enum ScriptLine {
    /// An event happens.
    Happens(Event),
    /// From here on the connection takes at most so many further bytes; and it is writable.
    TakesAtMost(u32, u64),
    /// The next offer to the connection fails.
    FailsNext(u32),
}

impl ScriptLine {
    ghost use Rattle.replay_script.specs.declared.script_line.ScriptLine.TheVariants as line;
    ghost use Rattle.replay_script.specs.ToldLines.{IsHappening};

    /// The same line once more.
    pub fn copy(&self, alloc: Global) -> Result<ScriptLine, NoMemory>
        ensures { IfOk result (λ line. line ≡ self.now) }
    {
        Ok(match self {
            ScriptLine::Happens(event) => ScriptLine::Happens(event.copy(alloc)?),
            ScriptLine::TakesAtMost(conn, room) => ScriptLine::TakesAtMost(*conn, *room),
            ScriptLine::FailsNext(conn) => ScriptLine::FailsNext(*conn),
        })
    }

    /// Takes the event of a line out; a tick stands there from then on.
    pub(crate) fn take_event(&mut self) -> Event
        requires { IsHappening self.old }
        ensures taken { self.old ≡ line.Happens result }
        ensures left { self.new ≡ line.Happens (event.Tick 0) }
    {
        match mem::replace(self, ScriptLine::Happens(Event::Tick(0))) {
            ScriptLine::Happens(event) => event,
            ScriptLine::TakesAtMost(_, _) | ScriptLine::FailsNext(_) => unreachable!(),
        }
    }
}
