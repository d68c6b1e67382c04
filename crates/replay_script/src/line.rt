//! What a line with words says.

ghost use Rattle.std.specs.Prelude.{◌≡◌, IfOk, IfSome};
ghost use Rattle.std.specs.Option.{option_copied};
ghost use Rattle.spec_machine.specs.BuiltLines.{all_lines, Open, Bytes, Close, Tick, Room, Fail};
ghost use Rattle.spec_machine.specs.Script.{after_words};
ghost use Rattle.replay_script.specs.Lines.{after_said, CanFollow, words_behind, only_of};

use crate::ScriptLine;
use crate::bytes::read_bytes;
use crate::lines::first_word;
use crate::numbers::read_number;
use crate::progress::Progress;
use ads_base::NoMemory;
use ads_outside::Event;
use std::alloc::Global;

/// `open C`
pub fn opening(progress: &Progress, rest: Option<&[u8]>) -> Option<ScriptLine>
    ensures new { IfSome result (CanFollow progress.now) }
    ensures said { after_words all_lines progress.now Open (words_behind (option_copied rest.entry)) ≡ after_said progress.now result }
{
    match only_word(rest) {
        Some(word) => match progress.fresh(word) {
            Some(conn) => Some(ScriptLine::Happens(Event::Opened(conn))),
            None => None,
        },
        None => None,
    }
}

/// `close C`
pub fn closing(progress: &Progress, rest: Option<&[u8]>) -> Option<ScriptLine>
    ensures new { IfSome result (CanFollow progress.now) }
    ensures said { after_words all_lines progress.now Close (words_behind (option_copied rest.entry)) ≡ after_said progress.now result }
{
    match only_word(rest) {
        Some(word) => match progress.open(word) {
            Some(conn) => Some(ScriptLine::Happens(Event::Closed(conn))),
            None => None,
        },
        None => None,
    }
}

/// `tick T`
pub fn ticking(progress: &Progress, rest: Option<&[u8]>) -> Option<ScriptLine>
    ensures new { IfSome result (CanFollow progress.now) }
    ensures said { after_words all_lines progress.now Tick (words_behind (option_copied rest.entry)) ≡ after_said progress.now result }
{
    match only_word(rest) {
        Some(word) => match read_number(word) {
            Some(moment) => Some(ScriptLine::Happens(Event::Tick(moment))),
            None => None,
        },
        None => None,
    }
}

/// `fail C`
pub fn failing(progress: &Progress, rest: Option<&[u8]>) -> Option<ScriptLine>
    ensures new { IfSome result (CanFollow progress.now) }
    ensures said { after_words all_lines progress.now Fail (words_behind (option_copied rest.entry)) ≡ after_said progress.now result }
{
    match only_word(rest) {
        Some(word) => match progress.open(word) {
            Some(conn) => Some(ScriptLine::FailsNext(conn)),
            None => None,
        },
        None => None,
    }
}

/// `room C N`
pub fn taking(progress: &Progress, rest: Option<&[u8]>) -> Option<ScriptLine>
    ensures new { IfSome result (CanFollow progress.now) }
    ensures said { after_words all_lines progress.now Room (words_behind (option_copied rest.entry)) ≡ after_said progress.now result }
{
    let Some(rest) = rest else {
        return None;
    };
    let (word, others) = first_word(rest);
    let Some(number) = only_word(others) else {
        return None;
    };
    let Some(conn) = progress.open(word) else {
        return None;
    };
    let Some(room) = read_number(number) else {
        return None;
    };
    Some(ScriptLine::TakesAtMost(conn, room))
}

/// `bytes C HEX ..`
pub fn piece(
    alloc: Global,
    progress: &Progress,
    rest: Option<&[u8]>,
) -> Result<Option<ScriptLine>, NoMemory>
    ensures new { IfOk result (λ said. IfSome said (CanFollow progress.now)) }
    ensures said { IfOk result (λ said.
        after_words all_lines progress.now Bytes (words_behind (option_copied rest.entry)) ≡ after_said progress.now said) }
{
    let Some(rest) = rest else {
        return Ok(None);
    };
    let (word, others) = first_word(rest);
    let Some(words) = others else {
        return Ok(None);
    };
    let Some(conn) = progress.open(word) else {
        return Ok(None);
    };
    let Some(bytes) = read_bytes(alloc, words)? else {
        return Ok(None);
    };
    Ok(Some(ScriptLine::Happens(Event::Piece(conn, bytes))))
}

// The one word behind the first; none where there is none or there are more.
fn only_word(rest: Option<&[u8]>) -> Option<&[u8]>
    ensures { option_copied result ≡ only_of (words_behind (option_copied rest.entry)) }
{
    match rest {
        Some(text) => match first_word(text) {
            (word, None) => Some(word),
            (_, Some(_)) => None,
        },
        None => None,
    }
}
