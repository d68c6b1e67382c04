//! One case: a call, its arguments, `=>`, and the answer that must come.

use crate::answer::Answer;
use crate::args::{Args, is_word, next_word};
use crate::fault::Fault;
use crate::folder::Sheet;
use crate::libraries::Libraries;
use ads_base::{NoMemory, Octets};
use std::alloc::Global;

/// How a case ended.
#[derive(Drop)]
pub enum Verdict {
    /// The answer came.
    Right,
    /// What came in its place.
    Came(Octets),
    /// Why the case can't be read.
    Unreadable(&'static str),
}

/// Tries a case.
pub fn tried<L: Libraries>(
    alloc: Global,
    sheets: &[Sheet],
    libraries: &mut L,
    case: &[u8],
) -> Result<Verdict, NoMemory> {
    let (first, behind) = next_word(case);
    if is_word(first, "cuts") {
        return tried_cut(alloc, sheets, libraries, behind);
    }
    let mut args = Args::new(alloc, sheets, case, None);
    tried_once(alloc, libraries, &mut args)
}

// The last argument is cut at each place, from no byte on to all but one; the answer must always be the same.
fn tried_cut<L: Libraries>(
    alloc: Global,
    sheets: &[Sheet],
    libraries: &mut L,
    case: &[u8],
) -> Result<Verdict, NoMemory> {
    let mut whole = 1;
    for len in 0..usize::MAX {
        if len >= whole {
            break;
        }
        let mut args = Args::new(alloc, sheets, case, Some(len));
        match tried_once(alloc, libraries, &mut args)? {
            Verdict::Right => whole = args.whole(),
            other => return Ok(other),
        }
    }
    Ok(Verdict::Right)
}

fn tried_once<L: Libraries>(
    alloc: Global,
    libraries: &mut L,
    args: &mut Args<'_>,
) -> Result<Verdict, NoMemory> {
    let mut answer = Answer::new(alloc);
    match made(alloc, libraries, args, &mut answer) {
        Ok(()) => compared(alloc, args, answer.as_slice()),
        Err(Fault::Memory) => Err(NoMemory),
        Err(Fault::NoCall) => Ok(Verdict::Unreadable("its first word names no call")),
        Err(Fault::BadArgument) => Ok(Verdict::Unreadable(
            "an argument is missing, off its form, or none that the call takes",
        )),
    }
}

// The call that the first word names: the library, a full stop, and the call.
fn made<L: Libraries>(
    alloc: Global,
    libraries: &mut L,
    args: &mut Args<'_>,
    answer: &mut Answer,
) -> Result<(), Fault> {
    let Some((library, call)) = args.name().split_once('.') else {
        return Err(Fault::NoCall);
    };
    libraries.make(alloc, library, call, args, answer)?;
    args.fault()?;
    answer.fault()?;
    Ok(())
}

fn compared(alloc: Global, args: &mut Args<'_>, answer: &[u8]) -> Result<Verdict, NoMemory> {
    if !is_word(args.word(), "=>") {
        return Ok(Verdict::Unreadable("`=>` does not follow the arguments"));
    }
    let mut wanted = args.rest();
    let mut came = answer;
    for _ in 0..usize::MAX {
        let (wanted_word, wanted_behind) = next_word(wanted);
        let (word, behind) = next_word(came);
        if !args.are_same(wanted_word, word)? {
            return Ok(Verdict::Came(Octets::copy_of(alloc, answer)?));
        }
        if word.is_empty() {
            break;
        }
        wanted = wanted_behind;
        came = behind;
    }
    Ok(Verdict::Right)
}
