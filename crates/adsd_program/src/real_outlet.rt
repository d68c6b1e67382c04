//! Where the log goes.

ghost use Rattle.std.specs.Prelude.{◌≤◌, ◌<◌, length};

use daemon_edge::StderrOutlet;
use daemon_log::NoOutlet;
use daemon_outside::LogOutlet;
use daemon_words::LogForm;

/// Where the log goes: to standard error, or nowhere.
#[derive(Drop)]
pub(crate) enum RealOutlet {
    Error(StderrOutlet),
    Nowhere(NoOutlet),
}

impl RealOutlet {
    /// The outlet of a form.
    pub(crate) fn of_form(form: LogForm) -> RealOutlet {
        match form {
            LogForm::Journal | LogForm::Plain => RealOutlet::Error(StderrOutlet),
            LogForm::Nothing => RealOutlet::Nowhere(NoOutlet),
        }
    }
}

impl LogOutlet for RealOutlet {
    ghost use Rattle.std.specs.Prelude.{None};

    ghost held = { λ _. None };

    fn take(&mut self, bytes: &[u8]) -> u32 {
        match self {
            RealOutlet::Error(outlet) => outlet.take(bytes),
            RealOutlet::Nowhere(outlet) => outlet.take(bytes),
        }
    }
}
