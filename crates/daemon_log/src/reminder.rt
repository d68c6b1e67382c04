//! When something that lasts is told again.

ghost use Rattle.std.specs.Prelude.{◌≡◌, None, Some};
ghost use Rattle.daemon_log.specs.Reminders.{is_due, told_then};

/// A trouble that may last: the tick at which it was told last, while it does.
#[derive(Clone, Copy, Debug, PartialEq, Eq)]
pub(crate) struct Reminder {
    pub(crate) told: Option<u64>,
}

impl Reminder {
    ghost use Rattle.std.specs.Prelude.{is_some};

    /// Nothing is wrong.
    pub(crate) fn new() -> Reminder
        ensures { result.told ≡ None }
    {
        Reminder { told: None }
    }

    /// It is wrong at this tick: whether that is to be told, at once and then each so many ticks.
    pub(crate) fn is_due(&mut self, tick: u64, each: u64) -> bool
        ensures due { result ≡ is_due self.old.told tick each }
        ensures told { self.new.told ≡ told_then self.old.told tick each }
    {
        let due = match self.told {
            Some(told) => tick.saturating_sub(told) >= each,
            None => true,
        };
        if due {
            self.told = Some(tick);
        }
        due
    }

    /// Nothing is wrong any more: whether something was, and was told.
    pub(crate) fn is_over(&mut self) -> bool
        ensures over { result ≡ is_some self.old.told }
        ensures told { self.new.told ≡ None }
    {
        let over = self.told.is_some();
        self.told = None;
        over
    }
}
