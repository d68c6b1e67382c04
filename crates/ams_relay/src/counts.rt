//! The counts of a relay.

ghost use Rattle.std.specs.Prelude.{◌≡◌, ◌+◌};
ghost use Rattle.spec_machine.specs.Summary.{count_of};

/// The counts of a relay. Each stands still at 18,446,744,073,709,551,615.
#[derive(Clone, Copy, Debug, PartialEq, Eq)]
pub struct RelaySummary {
    /// Connections that were opened.
    pub connections: u64,
    /// Whole frames that were taken.
    pub frames: u64,
    /// Frames that were given to a connection.
    pub passed: u64,
    /// Frames whose target nobody owned, or had no room.
    pub unknown: u64,
}

impl RelaySummary {
    pub(crate) fn nothing() -> RelaySummary
        ensures { result ≡ record { connections = 0; frames = 0; passed = 0; unknown = 0 } }
    {
        RelaySummary {
            connections: 0,
            frames: 0,
            passed: 0,
            unknown: 0,
        }
    }

    pub(crate) fn count_connection(&mut self)
        ensures { self.new ≡ record self.old { connections = count_of (self.old.connections + 1) } }
    {
        self.connections = self.connections.saturating_add(1);
    }

    pub(crate) fn count_frame(&mut self)
        ensures { self.new ≡ record self.old { frames = count_of (self.old.frames + 1) } }
    {
        self.frames = self.frames.saturating_add(1);
    }

    pub(crate) fn count_passed(&mut self)
        ensures { self.new ≡ record self.old { passed = count_of (self.old.passed + 1) } }
    {
        self.passed = self.passed.saturating_add(1);
    }

    pub(crate) fn count_unknown(&mut self)
        ensures { self.new ≡ record self.old { unknown = count_of (self.old.unknown + 1) } }
    {
        self.unknown = self.unknown.saturating_add(1);
    }
}
