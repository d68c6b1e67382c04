//! Files in memory, for tests.

ghost use Rattle.std.specs.Prelude.{◌≡◌, ◌≢◌, ◌≤◌, [], ◌∷◌, ◌++◌, Some, OnOk, OnErr};
ghost use Rattle.std.specs.Option.{option_copied};

use crate::{Failing, Files, Got, NamedFiles};
use ads_base::{Calls, ListOf, NoMemory, Octets};
use std::alloc::Global;
use std::marker::Model;

/// Files in memory. Calls with given numbers fail, and so does the reading of a missing file.
#[derive(Drop)]
pub struct MemFiles {
    alloc: Global,
    files: NamedFiles,
    names: ListOf<Octets>,
    failing: Failing,
}

impl Model for MemFiles {
    ghost use Rattle.ads_outside.specs.MemFiles.{HeldFiles};

    ghost Value = { HeldFiles };

    ghost view = { λ m. record { files = m.files; names = m.names; failing = m.failing } };
}

impl MemFiles {
    ghost use Rattle.ads_outside.specs.FailingCalls.{none_made};
    ghost use Rattle.ads_outside.specs.MemFiles.{got_of};
    ghost use Rattle.ads_outside.specs.Named.{bytes_of};

    /// These files; the calls of `read` with these numbers, counted from 1, fail.
    pub fn new(alloc: Global, files: NamedFiles, fails: Calls) -> MemFiles
        ensures { result ≡ record { files = files; names = []; failing = none_made fails } }
    {
        MemFiles {
            alloc,
            files,
            names: ListOf::new(alloc),
            failing: Failing::new(fails),
        }
    }

    /// The names that were read, in order.
    pub fn names(&self) -> &[Octets]
        ensures { result.now ≡ self.now.names }
    {
        self.names.as_slice()
    }

    // The bytes of the first file with this name.
    fn find(&self, name: &str) -> Option<&Octets>
        ensures { option_copied result ≡ bytes_of self.now.files name.now }
    {
        for file in self.files.as_slice() {
            if file.name.as_slice() == name.as_bytes() {
                return Some(&file.bytes);
            }
        }
        None
    }

    // What a reading that is not to fail answers.
    fn got(&self, name: &str) -> Got
        ensures { result ≢ Got.Memory → result ≡ got_of (bytes_of self.now.files name.now) }
    {
        let Some(bytes) = self.find(name) else {
            return Got::Failed;
        };
        if bytes.len() > 16_777_216 {
            return Got::TooLong;
        }
        match Octets::copy_of(self.alloc, bytes.as_slice()) {
            Ok(bytes) => Got::Bytes(bytes),
            Err(_) => Got::Memory,
        }
    }

    // A name that is read.
    fn note(&mut self, name: &str) -> Result<(), NoMemory>
        ensures ok { OnOk result (self.new ≡ record self.old { names = self.old.names ++ name.now ∷ [] }) }
        ensures no_memory { OnErr result (self.new ≡ self.old) }
    {
        let name = Octets::copy_of(self.alloc, name.as_bytes())?;
        self.names.push(self.alloc, name)?;
        Ok(())
    }
}

impl Files for MemFiles {
    ghost use Rattle.ads_outside.specs.FilesState.{AddsName};
    ghost use Rattle.ads_outside.specs.Limit.{IsWithinLimit};
    ghost use Rattle.ads_outside.specs.MemFiles.{answer_of, failing_after};
    ghost use Rattle.ads_outside.specs.Reads.{Reads};
    ghost use Rattle.ads_outside.specs.Rose.{Rose};

    ghost state = { λ m. record { held = Some m.files; names = Some m.names; faults = m.failing.faults } };

    fn faults(&self) -> u64 {
        self.failing.faults()
    }

    fn read(&mut self, name: &str) -> Got
        ensures read { Reads (Some self.old.files) name.now result }
        ensures held { Some self.new.files ≡ Some self.old.files }
        ensures named { AddsName result (Some self.old.names) (Some self.new.names) name.now }
        ensures limit { IsWithinLimit result }
        ensures later { self.old.failing.faults ≤ self.new.failing.faults }
        ensures failed { result ≡ Got.Failed → Rose self.old.failing.faults self.new.failing.faults }
        ensures answer { result ≢ Got.Memory → result ≡ answer_of self.old name.now }
        ensures counted { self.new.failing ≡ failing_after result self.old.failing }
    {
        if self.note(name).is_err() {
            self.failing.call();
            return Got::Memory;
        }
        if self.failing.fails_next() {
            self.failing.fault();
            return Got::Failed;
        }
        let got = self.got(name);
        if matches!(&got, Got::Failed) {
            self.failing.fault();
        } else {
            self.failing.call();
        }
        got
    }
}
