//! What is printed: the cases that are wrong, a line for each file, and the sum.

use crate::folder::{Sheet, read_all};
use crate::libraries::Libraries;
use crate::sheet::tried_all;
use ads_base::{NoMemory, Octets};
use std::alloc::Global;
use std::env::Env;
use std::io::{self, Eprint, Write};
use std::process::ExitCode;
use std::rt::Files;

/// Tries the cases of all files and prints what came of them. The status is 0 where each case had its answer, 1 where one had not, and 2 where
/// the cases could not be tried.
pub fn main_of<L: Libraries, R: Files + Env + Print + Eprint + AllocGlobal + Clone + Drop>(
    rt: &R,
) -> ExitCode {
    match print_all::<L, R>(rt) {
        Ok(0) => ExitCode::SUCCESS,
        Ok(_) => ExitCode::from(1),
        Err(_) => {
            let _ = rt.eprintln("cases: the files can't be read, or memory is wanting");
            ExitCode::from(2)
        }
    }
}

// How many cases are wrong.
fn print_all<L: Libraries, R: Files + Env + Print + AllocGlobal + Clone + Drop>(
    rt: &R,
) -> io::Result<u64> {
    let sheets = read_all(rt)?;
    let mut out = Octets::new(rt.alloc());
    let wrong = match put_all::<L>(rt.alloc(), sheets.as_slice(), &mut out) {
        Ok(wrong) => wrong,
        Err(NoMemory) => return Err(io::Error::from(io::ErrorKind::OutOfMemory)),
    };
    let mut printed = io::writer(rt);
    printed.write_all(out.as_slice())?;
    printed.flush()?;
    Ok(wrong)
}

fn put_all<L: Libraries>(
    alloc: Global,
    sheets: &[Sheet],
    out: &mut Octets,
) -> Result<u64, NoMemory> {
    let mut files = 0u64;
    let mut cases = 0u64;
    let mut wrong = 0u64;
    for sheet in sheets {
        if sheet.name.ends_with(".cases") {
            let count = tried_all::<L>(alloc, sheets, sheet, out)?;
            files = files.saturating_add(1);
            cases = cases.saturating_add(count.cases);
            wrong = wrong.saturating_add(count.wrong);
            put_count(alloc, sheet.name.as_str(), count.cases, out)?;
        }
    }
    let sum = format!(in alloc; "{cases} cases in {files} files, {wrong} wrong\n")?;
    out.put(alloc, sum.as_bytes())?;
    Ok(wrong)
}

fn put_count(alloc: Global, name: &str, cases: u64, out: &mut Octets) -> Result<(), NoMemory> {
    let line = format!(in alloc; "{name} {cases} cases\n")?;
    out.put(alloc, line.as_bytes())?;
    Ok(())
}
