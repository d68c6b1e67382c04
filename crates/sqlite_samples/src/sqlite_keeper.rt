//! A keeper of samples in an SQLite file.

ghost use Rattle.std.specs.Prelude.{◌≡◌, ◌≤◌, None};
ghost use Rattle.ads_outside.specs.Rose.{Rose};

use crate::base::{OpenFile, close_settled, open_base, write_back};
use crate::tables::{put_row, settle_rows, total_of};
use sample_store::{Keeper, KeeperOpen, Kept, Row, Total, Totalled};
use sqlite::{Error, ErrorCode};

/// No file was opened.
const UNOPENED: Error = Error::SqliteFailure(ErrorCode::CannotOpen);

/// The most puts of one transaction.
const MAX_GATHERED: u32 = 4_096;

/// Samples in an SQLite file, in two tables. Puts are gathered in one transaction until they are settled, 4,096 at most. It
/// tells nothing of its rows, and counts each refused statement as a fault. Behind each settling it looks whether the name still
/// leads to the file; else that is a fault, which is told on standard error. Before the first total behind a put, and when it
/// goes, it settles them, and SQLite's log is written back into the file and taken away.
pub struct SqliteKeeper {
    rt: HostRuntime,
    file: Option<OpenFile>,
    // Whether rows were written since the file was opened.
    is_written: bool,
    // The puts of the transaction that is open.
    gathered: u32,
    faults: u64,
}

impl SqliteKeeper {
    /// No file is open.
    pub fn new(rt: HostRuntime) -> SqliteKeeper {
        SqliteKeeper {
            rt,
            file: None,
            is_written: false,
            gathered: 0,
            faults: 0,
        }
    }

    // Opens a file; the one that was open is closed first.
    fn open_file(&mut self, name: &str) -> Result<u64, Error>
        ensures { self.new.faults ≡ self.old.faults }
    {
        self.close()?;
        let (file, last) = open_base(&self.rt, name)?;
        self.file = Some(file);
        Ok(last)
    }

    // What was gathered is settled, the log is written back, and the file is closed.
    fn close(&mut self) -> Result<(), Error>
        ensures { self.new.faults ≡ self.old.faults }
    {
        self.is_written = false;
        self.gathered = 0;
        match self.file.take() {
            None => Ok(()),
            Some(file) => close_settled(&self.rt, file),
        }
    }

    fn put_in(&mut self, row: &Row) -> Result<(), Error>
        ensures { self.new.faults ≡ self.old.faults }
    {
        self.is_written = true;
        put_by(&mut self.file, row)?;
        if self.gathered < MAX_GATHERED - 1 {
            self.gathered += 1;
            return Ok(());
        }
        self.settle_all()
    }

    // The transaction that is open is ended, and its rows stand where the name leads.
    fn settle_all(&mut self) -> Result<(), Error>
        ensures { self.new.faults ≡ self.old.faults }
    {
        self.gathered = 0;
        settle_by(&self.rt, &mut self.file)
    }

    // The log is written back, and the file goes on open.
    fn write_all(&mut self) -> Result<(), Error>
        ensures { self.new.faults ≡ self.old.faults }
    {
        self.is_written = false;
        match self.file.take() {
            None => Ok(()),
            Some(file) => {
                self.file = Some(written_back(&self.rt, file)?);
                Ok(())
            }
        }
    }

    // The total of a name, from the file as it will be left.
    fn total_in(&mut self, name: &[u8]) -> Result<Option<Total>, Error>
        ensures { self.new.faults ≡ self.old.faults }
    {
        if self.is_written {
            self.settle_all()?;
            self.write_all()?;
        }
        total_by(&mut self.file, name)
    }
}

// Before a file was opened, a put fails.
fn put_by(file: &mut Option<OpenFile>, row: &Row) -> Result<(), Error> {
    match file {
        None => Err(UNOPENED),
        Some(file) => put_row(&mut file.conn, row),
    }
}

// Before a file was opened there is nothing to settle.
fn settle_by(rt: &HostRuntime, file: &mut Option<OpenFile>) -> Result<(), Error> {
    match file {
        None => Ok(()),
        Some(file) => {
            settle_rows(&mut file.conn)?;
            file.places.look(rt)
        }
    }
}

// Before a file was opened, a total fails.
fn total_by(file: &mut Option<OpenFile>, name: &[u8]) -> Result<Option<Total>, Error> {
    match file {
        None => Err(UNOPENED),
        Some(file) => total_of(&mut file.conn, name),
    }
}

fn written_back(rt: &HostRuntime, file: OpenFile) -> Result<OpenFile, Error> {
    let OpenFile { conn, places } = file;
    let conn = write_back(rt, conn)?;
    Ok(OpenFile { conn, places })
}

// It is written out, so that whatever ends a run leaves one file.
impl Drop for SqliteKeeper {
    fn drop(self) {
        let SqliteKeeper {
            rt,
            file,
            is_written: _,
            gathered: _,
            faults: _,
        } = self;
        if let Some(file) = file {
            // Nobody is there to be told what fails here; the rows that were settled stand in the log then.
            let _ = close_settled(&rt, file);
        }
    }
}

// One fault more.
fn count(faults: &mut u64)
    ensures rose { Rose faults.old faults.new }
    ensures later { faults.old ≤ faults.new }
{
    *faults = faults.saturating_add(1);
}

// How a put or a settling ended, and one fault more where it failed.
fn kept(put: Result<(), Error>, faults: &mut u64) -> Kept
    ensures later { faults.old ≤ faults.new }
    ensures failed { result ≡ Kept.Failed → Rose faults.old faults.new }
{
    match put {
        Ok(()) => Kept::Done,
        Err(error) => {
            if is_memory(&error) {
                return Kept::Memory;
            }
            count(faults);
            Kept::Failed
        }
    }
}

// Whether memory was wanting.
fn is_memory(error: &Error) -> bool {
    matches!(error, Error::SqliteFailure(ErrorCode::OutOfMemory))
}

impl Keeper for SqliteKeeper {
    ghost state = { λ k. record { rows = None; names = None; faults = k.faults } };

    fn faults(&self) -> u64 {
        self.faults
    }

    fn open(&mut self, name: &str) -> KeeperOpen {
        match self.open_file(name) {
            Ok(last) => KeeperOpen::Ready(last),
            Err(error) => {
                if is_memory(&error) {
                    return KeeperOpen::Memory;
                }
                count(&mut self.faults);
                KeeperOpen::Failed
            }
        }
    }

    fn put(&mut self, row: &Row) -> Kept {
        let put = self.put_in(row);
        kept(put, &mut self.faults)
    }

    fn settle(&mut self) -> Kept {
        let settled = self.settle_all();
        kept(settled, &mut self.faults)
    }

    fn total(&mut self, name: &[u8]) -> Totalled {
        match self.total_in(name) {
            Ok(Some(total)) => Totalled::Found(total),
            Ok(None) => Totalled::Nothing,
            Err(error) => {
                if is_memory(&error) {
                    return Totalled::Memory;
                }
                count(&mut self.faults);
                Totalled::Failed
            }
        }
    }
}
