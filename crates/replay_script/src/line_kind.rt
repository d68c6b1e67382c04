//! The first words of lines.

ghost use Rattle.std.specs.Prelude.{◌≡◌, option_map};
ghost use Rattle.spec_machine.specs.Script.{kind_of};
ghost use Rattle.replay_script.specs.Lines.{kind_meant};

/// The lines of a script that have words.
#[derive(Clone, Copy, PartialEq, Eq)]
pub enum LineKind {
    Open,
    Bytes,
    Close,
    Tick,
    Reload,
    Room,
    Fail,
}

/// The kind of a line with this first word; none where no line begins with it.
#[tactic(auto, unfolding(spec_machine::specs::Script::kind_of))]
pub fn line_kind(word: &[u8]) -> Option<LineKind>
    ensures { option_map kind_meant result ≡ kind_of word.now }
{
    if word == b"open".as_slice() {
        Some(LineKind::Open)
    } else if word == b"bytes".as_slice() {
        Some(LineKind::Bytes)
    } else if word == b"close".as_slice() {
        Some(LineKind::Close)
    } else if word == b"tick".as_slice() {
        Some(LineKind::Tick)
    } else if word == b"reload".as_slice() {
        Some(LineKind::Reload)
    } else if word == b"room".as_slice() {
        Some(LineKind::Room)
    } else if word == b"fail".as_slice() {
        Some(LineKind::Fail)
    } else {
        None
    }
}
