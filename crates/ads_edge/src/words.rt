//! The words of the process.

ghost use Rattle.std.specs.Prelude.{◌≡◌, Err, IfErr, IfOk, MatchResult};
ghost use Rattle.std.specs.IoError.{error_kind};
ghost use Rattle.std.specs.Vec.Iter.{into_iter_items};

use std::alloc::Global;
use std::env::{self, Args};
use std::io::{self, ErrorKind};

/// The words of the process, the program's name first; or what failed where they could not be read: `InvalidData` where one is
/// not UTF-8, `OutOfMemory` where memory was wanting. What the system gives is not told.
pub fn words_of_process(rt: &HostRuntime) -> Result<Vec<String>, ErrorKind> {
    words_given(rt.alloc(), env::args(rt))
}

// The words that were given, each in its place, unless memory was wanting; or what failed.
fn words_given(alloc: Global, given: io::Result<Args>) -> Result<Vec<String>, ErrorKind>
    ensures words { IfOk given (λ args. MatchResult result
        (λ all. all.items ≡ into_iter_items args) (λ kind. kind ≡ ErrorKind.OutOfMemory)) }
    ensures unreadable { IfErr given (λ error. result ≡ Err (error_kind error)) }
{
    match given {
        Ok(args) => match args.collect(alloc) {
            Ok(words) => Ok(words),
            Err(_) => Err(ErrorKind::OutOfMemory),
        },
        Err(error) => Err(error.kind()),
    }
}
