//! Files of which one was read before.

ghost use Rattle.ads_outside.specs.Limit.{IsWithinLimit};

use ads_base::Octets;
use ads_edge::RealFiles;
use ads_outside::{Files, Got};

/// The greatest number of bytes of a file that is read.
const LIMIT: usize = 16_777_216;

/// Files of the disk whose first reading was made before: it answers what the file held then. So the server, its log and its
/// router speak of one text, whatever becomes of the file meanwhile.
#[derive(Drop)]
pub(crate) struct ReadBefore {
    files: RealFiles<HostRuntime>,
    first: Option<Got>,
    // The first is not what the file held.
    stands_in: bool,
    faults: u64,
}

impl ReadBefore {
    /// Reads the file of this name.
    pub fn new(mut files: RealFiles<HostRuntime>, name: &str) -> ReadBefore {
        let first = files.read(name);
        ReadBefore {
            files,
            first: Some(first),
            stands_in: false,
            faults: 0,
        }
    }

    /// Another text stands in for what the file held.
    pub fn stand_in(&mut self, text: Octets) {
        self.first = Some(Got::Bytes(text));
        self.stands_in = true;
    }

    /// Whether another text stands in for what the file held.
    pub fn stands_in(&self) -> bool {
        self.stands_in
    }

    /// The text of the file, where it could be read and was not asked for.
    pub fn text(&self) -> Option<&[u8]> {
        match &self.first {
            Some(Got::Bytes(text)) => Some(text.as_slice()),
            _ => None,
        }
    }
}

impl Files for ReadBefore {
    ghost use Rattle.std.specs.Prelude.{None};

    ghost state = { λ f. record { held = None; names = None; faults = f.faults } };

    fn faults(&self) -> u64 {
        self.faults
    }

    fn read(&mut self, name: &str) -> Got {
        let got = match self.first.take() {
            Some(got) => within(got),
            None => self.files.read(name),
        };
        if matches!(&got, Got::Failed) {
            self.faults = self.faults.saturating_add(1);
        }
        got
    }
}

// A text that is too long is not handed out.
fn within(got: Got) -> Got
    ensures within { IsWithinLimit result }
{
    match got {
        Got::Bytes(bytes) => {
            if bytes.len() <= LIMIT {
                Got::Bytes(bytes)
            } else {
                Got::TooLong
            }
        }
        Got::TooLong => Got::TooLong,
        Got::Failed => Got::Failed,
        Got::Memory => Got::Memory,
    }
}
