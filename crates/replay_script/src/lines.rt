//! The lines of a script, and the words of a line.

ghost use Rattle.std.specs.Prelude.{◌≡◌, ◌==◌, ◌∷◌, ◌<◌, length, position, IfSome};
ghost use Rattle.std.specs.Option.{option_copied};
ghost use Rattle.spec_machine.specs.ScriptLines as script;
ghost use Rattle.replay_script.specs.Lines.{words_behind};

use memchr::memchr;

/// The first line with its end, and what follows it.
pub fn first_line(bytes: &[u8]) -> (&[u8], &[u8])
    requires { 0 < length bytes.now }
    ensures lines { script.lines_of bytes.now ≡ result.0.now ∷ script.lines_of result.1.now }
    ensures shorter { length result.1.now < length bytes.now }
{
    match place_of(bytes, b'\n') {
        Some(at) => bytes.split_at(at + 1),
        None => bytes.split_at(bytes.len()),
    }
}

/// The text of a line: it is without its LF, and without a CR before that.
pub fn text_of(line: &[u8]) -> &[u8]
    ensures { result.now ≡ script.text_of line.now }
{
    let [text @ .., b'\n'] = line else {
        return line;
    };
    let [short @ .., b'\r'] = text else {
        return text;
    };
    short
}

/// The first word of a text, and the text behind its space, if there is one.
pub fn first_word(text: &[u8]) -> (&[u8], Option<&[u8]>)
    ensures words { script.words_of text.now ≡ result.0.now ∷ words_behind (option_copied result.1) }
    ensures shorter { IfSome (option_copied result.1) (λ rest. length rest < length text.now) }
{
    match place_of(text, b' ') {
        Some(at) => (&text[..at], Some(&text[at + 1..])),
        None => (text, None),
    }
}

// The first place of a byte.
fn place_of(bytes: &[u8], byte: u8) -> Option<usize>
    ensures { result ≡ position (λ b. b == byte) bytes.now }
{
    memchr(byte, bytes)
}
