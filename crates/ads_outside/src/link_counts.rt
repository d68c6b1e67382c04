//! What a link tells of its answers, whatever it is.

ghost use Rattle.std.specs.Prelude.{◌≡◌};
ghost use Rattle.ads_outside.specs.LinkState.{not_connected, connected_at, bytes_came, quiet_came, closed_came, broke_off};

use std::marker::Model;

/// The last moment of a link, and its answers since it was connected: for whoever is a `Link`. Counts stand still at
/// their type's end.
#[derive(Drop)]
pub struct LinkCounts {
    moment: u64,
    answers: u64,
    quiet: u64,
    closed: bool,
    broken: bool,
}

impl Model for LinkCounts {
    ghost use Rattle.ads_outside.specs.LinkState.{LinkHistory};

    ghost Value = { LinkHistory };

    ghost view = { λ l. record { moment = l.moment; answers = l.answers; quiet = l.quiet; closed = l.closed; broken = l.broken } };
}

impl LinkCounts {
    /// No answer was given.
    pub fn new() -> Self
        ensures { result ≡ not_connected }
    {
        LinkCounts {
            moment: 0,
            answers: 0,
            quiet: 0,
            closed: false,
            broken: false,
        }
    }

    /// The moment of the last answer.
    pub fn moment(&self) -> u64
        ensures { result ≡ self.now.moment }
    {
        self.moment
    }

    /// It was connected at this moment.
    pub fn connect(&mut self, now: u64)
        ensures { self.new ≡ connected_at now }
    {
        *self = LinkCounts {
            moment: now,
            answers: 0,
            quiet: 0,
            closed: false,
            broken: false,
        };
    }

    /// Bytes came.
    pub fn bytes(&mut self, now: u64)
        ensures { self.new ≡ bytes_came now self.old }
    {
        self.answer(now);
        self.quiet = 0;
    }

    /// Nothing came.
    pub fn quiet(&mut self, now: u64)
        ensures { self.new ≡ quiet_came now self.old }
    {
        self.answer(now);
        self.quiet = self.quiet.saturating_add(1);
    }

    /// The peer closed the connection.
    pub fn close(&mut self, now: u64)
        ensures { self.new ≡ closed_came now self.old }
    {
        self.answer(now);
        self.quiet = 0;
        self.closed = true;
    }

    /// To receive failed.
    pub fn break_off(&mut self)
        ensures { self.new ≡ broke_off self.old }
    {
        self.broken = true;
    }
}

impl LinkCounts {
    ghost use Rattle.ads_outside.specs.LinkState.{answered};

    // One more answer.
    fn answer(&mut self, now: u64)
        ensures { self.new ≡ answered now self.old }
    {
        self.moment = now;
        self.answers = self.answers.saturating_add(1);
    }
}
