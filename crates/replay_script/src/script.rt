//! A script that was read.

ghost use Rattle.std.specs.Prelude.{◌≡◌, [], ◌∷◌, ◌++◌, map, OnOk, OnErr};
ghost use Rattle.replay_script.specs.Script.{line_meant, is_event, event_count};

use crate::ScriptLine;
use ads_base::{ListOf, NoMemory};
use std::alloc::Global;
use std::marker::Model;

/// What the lines of a script say, in order. Contracts see it as the lines of the machine's script.
#[derive(Debug, Drop)]
pub struct Script {
    lines: ListOf<ScriptLine>,
}

impl Model for Script {
    ghost use Rattle.std.specs.Prelude.{List, map};
    ghost use Rattle.spec_machine.specs.ScriptLine.{ScriptLine};
    ghost use Rattle.replay_script.specs.Script.{line_meant};

    ghost Value = { List ScriptLine };

    ghost view = { λ s. map line_meant s.lines };
}

impl Script {
    /// The number of events: a line that says how a connection takes lets it be writable, and one that fails an
    /// offer is none.
    pub fn events(&self) -> u64
        ensures { result ≡ event_count self.now }
    {
        let mut events: u64 = 0;
        for line in self.lines.as_slice() {
            if is_event(line) {
                events += 1;
            }
        }
        events
    }

    /// What the lines say.
    pub fn as_slice(&self) -> &[ScriptLine]
        ensures { map line_meant result.now ≡ self.now }
    {
        self.lines.as_slice()
    }

    /// The lines, which takes no memory.
    pub(crate) fn into_lines(self) -> ListOf<ScriptLine>
        ensures { map line_meant result ≡ self }
    {
        let Script { lines } = self;
        lines
    }

    /// No lines.
    pub(crate) fn new(alloc: Global) -> Self
        ensures { result ≡ [] }
    {
        Script {
            lines: ListOf::new(alloc),
        }
    }

    /// Appends a line.
    pub(crate) fn push(&mut self, alloc: Global, line: ScriptLine) -> Result<(), NoMemory>
        ensures ok { OnOk result (self.new ≡ self.old ++ line_meant line ∷ []) }
        ensures no_memory { OnErr result (self.new ≡ self.old) }
    {
        self.lines.push(alloc, line)?;
        Ok(())
    }
}

fn is_event(line: &ScriptLine) -> bool
    ensures { result ≡ is_event (line_meant line.now) }
{
    match line {
        ScriptLine::Happens(_) | ScriptLine::TakesAtMost(_, _) => true,
        ScriptLine::FailsNext(_) => false,
    }
}
