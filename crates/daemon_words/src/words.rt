//! The words of a command line, read.

ghost use Rattle.std.specs.Prelude.{map, string_bytes, IfOk};
ghost use Rattle.daemon_words.specs.Asking.{IsAsked};
ghost use Rattle.daemon_words.specs.Reading.{Says, PutsWords, no_word};

use crate::words_read::WordsRead;
use crate::{Asked, Given, SetupFault};
use cli_words::Text;
use std::alloc::Global;

/// What the words behind the program's name ask for.
pub fn read_words(alloc: Global, words: &[String]) -> Result<Asked, SetupFault>
    ensures { IfOk result (IsAsked (map string_bytes words.now)) }
{
    match words {
        [] => Err(SetupFault::NoFile),
        [word] if word.as_str() == "--help" => Ok(Asked::Help),
        [word] if word.as_str() == "--version" => Ok(Asked::Version),
        [word, file] if word.as_str() == "check" => checked(alloc, file.as_str()),
        _ => asked(alloc, words),
    }
}

fn checked(alloc: Global, file: &str) -> Result<Asked, SetupFault>
    ensures { IfOk result (λ a. (words : _) → IsAsked words a) }
{
    Ok(Asked::Check(Text::copy_of(alloc, file)?))
}

fn asked(alloc: Global, words: &[String]) -> Result<Asked, SetupFault>
    ensures { IfOk result (IsAsked (map string_bytes words.now)) }
{
    match said(alloc, words) {
        Ok((file, given)) => Ok(Asked::Run(file, given)),
        Err(fault) => Err(fault),
    }
}

// The file that words name, and what they give.
fn said(alloc: Global, words: &[String]) -> Result<(Text, Given), SetupFault>
    ensures { IfOk result (λ (file, given). Says (map string_bytes words.now) file given) }
{
    let mut read = WordsRead::new(alloc);
    for word in words {
        read.put(alloc, word.as_str())?;
    }
    read.end()
}
