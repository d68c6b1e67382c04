//! The counts of a run.

ghost use Rattle.std.specs.Prelude.{◌≡◌, ◌+◌};
ghost use Rattle.spec_machine.specs.Summary.{count_of};

/// The counts of a run. Each stands still at 18,446,744,073,709,551,615.
#[derive(Clone, Copy, Debug, PartialEq, Eq)]
pub struct Summary {
    /// Connections that were opened.
    pub connections: u64,
    /// Whole frames that were taken.
    pub requests: u64,
    /// Replies that were produced.
    pub replies: u64,
    /// Samples in produced notifications.
    pub samples: u64,
    /// Reloads that were accepted.
    pub accepted: u64,
    /// Reloads that were refused.
    pub refused: u64,
}

impl Summary {
    pub(crate) fn nothing() -> Summary
        ensures { result ≡ record { connections = 0; requests = 0; replies = 0; samples = 0; accepted = 0; refused = 0 } }
    {
        Summary {
            connections: 0,
            requests: 0,
            replies: 0,
            samples: 0,
            accepted: 0,
            refused: 0,
        }
    }

    pub(crate) fn count_connection(&mut self)
        ensures { self.new ≡ record self.old { connections = count_of (self.old.connections + 1) } }
    {
        self.connections = self.connections.saturating_add(1);
    }

    pub(crate) fn count_request(&mut self)
        ensures { self.new ≡ record self.old { requests = count_of (self.old.requests + 1) } }
    {
        self.requests = self.requests.saturating_add(1);
    }

    pub(crate) fn count_reply(&mut self)
        ensures { self.new ≡ record self.old { replies = count_of (self.old.replies + 1) } }
    {
        self.replies = self.replies.saturating_add(1);
    }

    pub(crate) fn count_samples(&mut self, samples: u32)
        ensures { self.new ≡ record self.old { samples = count_of (self.old.samples + samples) } }
    {
        self.samples = self.samples.saturating_add(samples as u64);
    }

    pub(crate) fn count_accepted(&mut self)
        ensures { self.new ≡ record self.old { accepted = count_of (self.old.accepted + 1) } }
    {
        self.accepted = self.accepted.saturating_add(1);
    }

    pub(crate) fn count_refused(&mut self)
        ensures { self.new ≡ record self.old { refused = count_of (self.old.refused + 1) } }
    {
        self.refused = self.refused.saturating_add(1);
    }
}
