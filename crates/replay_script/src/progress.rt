//! How far a script is read.

ghost use Rattle.std.specs.Prelude.{◌≡◌, ◌+◌, ◌<◌, ◌^◌, ◌++◌, false, [], ◌∷◌, Some, None, IfOk, IfSome, OnOk, if◌then◌else◌};
ghost use Rattle.std.specs.Option.{option_copied};
ghost use Rattle.ads_outside.specs.declared.event.Event.TheVariants as event;
ghost use Rattle.spec_machine.specs.BuiltLines.{all_lines, Reload};
ghost use Rattle.spec_machine.specs.ScriptLine.{Happens};
ghost use Rattle.spec_machine.specs.Reading.{nothing_read, line_said, opened_by, closed_by, one_more_line, is_among};
ghost use Rattle.spec_machine.specs.Script.{after_line, after_plain_line, after_text_line, after_words, is_blank_line, fresh_number, open_connection, said_by};
ghost use Rattle.replay_script.specs.Script.{line_meant};
ghost use Rattle.replay_script.specs.Lines.{after_said, block_meant, kind_meant, words_behind, CanFollow, OpensNew, ClosesNew};

use crate::line::{closing, failing, opening, piece, taking, ticking};
use crate::line_kind::{LineKind, line_kind};
use crate::lines::{first_word, text_of};
use crate::number_list::NumberList;
use crate::numbers::read_connection;
use crate::{Script, ScriptLine};
use ads_base::{NoMemory, Octets};
use ads_outside::Event;
use std::alloc::Global;
use std::marker::Model;

/// The text of a reload that goes on: the number of its first line, and its bytes so far.
#[derive(Drop)]
pub struct TextBlock {
    line: u32,
    bytes: Octets,
}

/// The lines that were read, the connections that they opened and closed, and what they say.
#[derive(Drop)]
pub struct Progress {
    lines: u32,
    opened: NumberList,
    closed: NumberList,
    block: Option<TextBlock>,
    script: Script,
}

impl Model for Progress {
    ghost use Rattle.std.specs.Option.{option_map};
    ghost use Rattle.spec_machine.specs.Reading.{Reading};
    ghost use Rattle.replay_script.specs.Lines.{block_meant};

    ghost Value = { Reading };

    ghost view = { λ p. record {
      lines = p.lines;
      opened = p.opened;
      closed = p.closed;
      block = option_map block_meant p.block;
      said = p.script;
    } };
}

impl Progress {
    /// Nothing was read.
    pub fn new(alloc: Global) -> Self
        ensures { result ≡ nothing_read }
    {
        Progress {
            lines: 0,
            opened: NumberList::new(alloc),
            closed: NumberList::new(alloc),
            block: None,
            script: Script::new(alloc),
        }
    }

    /// The number of lines that were read.
    pub fn lines(&self) -> u32
        ensures { result ≡ self.now.lines }
    {
        self.lines
    }

    /// The connection of a word, if it may be opened.
    pub fn fresh(&self, word: &[u8]) -> Option<u32>
        ensures number { result ≡ fresh_number all_lines self.now word.now }
        ensures new { IfSome result (λ c. is_among c self.now.opened ≡ false) }
    {
        match read_connection(word) {
            Some(conn) => {
                if (self.opened.len() as u64) < 4294967296 && !self.opened.has(conn) {
                    Some(conn)
                } else {
                    None
                }
            }
            None => None,
        }
    }

    /// The connection of a word, if it is open.
    pub fn open(&self, word: &[u8]) -> Option<u32>
        ensures number { result ≡ open_connection self.now word.now }
        ensures not_closed { IfSome result (λ c. is_among c self.now.closed ≡ false) }
    {
        match read_connection(word) {
            Some(conn) => {
                if self.opened.has(conn) && !self.closed.has(conn) {
                    Some(conn)
                } else {
                    None
                }
            }
            None => None,
        }
    }

    /// Reads one more line, if it is in the grammar.
    pub fn take(&mut self, alloc: Global, line: &[u8]) -> Result<bool, NoMemory>
        requires { self.old.lines + 1 < 2 ^ 32 }
        ensures read { IfOk result (λ read. after_line all_lines self.old line.now
            ≡ (if read then Some self.new else None)) }
        ensures lines { IfOk result (λ read. self.new.lines
            ≡ (if read then self.old.lines + 1 else self.old.lines)) }
    {
        match self.block.take() {
            Some(block) => {
                self.take_text(alloc, block, line)?;
                Ok(true)
            }
            None => self.take_plain(alloc, text_of(line)),
        }
    }

    // A line below `reload`: a full stop alone ends the text.
    fn take_text(&mut self, alloc: Global, block: TextBlock, line: &[u8]) -> Result<(), NoMemory>
        requires { self.old.lines + 1 < 2 ^ 32 }
        ensures { OnOk result (self.new ≡ after_text_line (block_meant block) line.now self.old) }
    {
        let TextBlock { line: first, bytes } = block;
        if text_of(line) == b".".as_slice() {
            return self.end_text(alloc, bytes);
        }
        let mut bytes = bytes;
        bytes.put(alloc, line)?;
        self.block = Some(TextBlock { line: first, bytes });
        self.lines += 1;
        Ok(())
    }

    // The text of a reload ends.
    fn end_text(&mut self, alloc: Global, bytes: Octets) -> Result<(), NoMemory>
        requires { self.old.lines + 1 < 2 ^ 32 }
        ensures { OnOk result (self.new ≡ record self.old {
          lines = self.old.lines + 1;
          block = None;
          said = self.old.said ++ Happens (event.Reload bytes) ∷ [];
        }) }
    {
        self.script
            .push(alloc, ScriptLine::Happens(Event::Reload(bytes)))?;
        self.block = None;
        self.lines += 1;
        Ok(())
    }

    // A line outside the text of a reload.
    fn take_plain(&mut self, alloc: Global, text: &[u8]) -> Result<bool, NoMemory>
        requires { self.old.lines + 1 < 2 ^ 32 }
        ensures read { IfOk result (λ read. after_plain_line all_lines self.old text.now
            ≡ (if read then Some self.new else None)) }
        ensures lines { IfOk result (λ read. self.new.lines
            ≡ (if read then self.old.lines + 1 else self.old.lines)) }
    {
        if is_blank(text) {
            self.lines += 1;
            return Ok(true);
        }
        let (word, rest) = first_word(text);
        match line_kind(word) {
            Some(kind) => self.take_kind(alloc, kind, rest),
            None => Ok(false),
        }
    }

    // A line of this kind, with these words behind the first.
    fn take_kind(
        &mut self,
        alloc: Global,
        kind: LineKind,
        rest: Option<&[u8]>,
    ) -> Result<bool, NoMemory>
        requires { self.old.lines + 1 < 2 ^ 32 }
        ensures read { IfOk result (λ read.
            after_words all_lines self.old (kind_meant kind) (words_behind (option_copied rest.entry))
            ≡ (if read then Some self.new else None)) }
        ensures lines { IfOk result (λ read. self.new.lines
            ≡ (if read then self.old.lines + 1 else self.old.lines)) }
    {
        match kind {
            LineKind::Open => {
                let said = opening(self, rest);
                self.say(alloc, said)
            }
            LineKind::Bytes => {
                let said = piece(alloc, self, rest)?;
                self.say(alloc, said)
            }
            LineKind::Close => {
                let said = closing(self, rest);
                self.say(alloc, said)
            }
            LineKind::Tick => {
                let said = ticking(self, rest);
                self.say(alloc, said)
            }
            LineKind::Reload => self.begin_text(alloc, rest),
            LineKind::Room => {
                let said = taking(self, rest);
                self.say(alloc, said)
            }
            LineKind::Fail => {
                let said = failing(self, rest);
                self.say(alloc, said)
            }
        }
    }

    // The text of a reload begins with the next line.
    fn begin_text(&mut self, alloc: Global, rest: Option<&[u8]>) -> Result<bool, NoMemory>
        requires { self.old.lines + 1 < 2 ^ 32 }
        ensures read { IfOk result (λ read.
            after_words all_lines self.old Reload (words_behind (option_copied rest.entry))
            ≡ (if read then Some self.new else None)) }
        ensures lines { IfOk result (λ read. self.new.lines
            ≡ (if read then self.old.lines + 1 else self.old.lines)) }
    {
        match rest {
            Some(_) => Ok(false),
            None => {
                self.lines += 1;
                self.block = Some(TextBlock {
                    line: self.lines,
                    bytes: Octets::new(alloc),
                });
                Ok(true)
            }
        }
    }

    // One more line said this, if it said something.
    fn say(&mut self, alloc: Global, said: Option<ScriptLine>) -> Result<bool, NoMemory>
        requires fits { self.old.lines + 1 < 2 ^ 32 }
        requires new { IfSome said (CanFollow self.old) }
        ensures read { IfOk result (λ read. after_said self.old said ≡ (if read then Some self.new else None)) }
        ensures lines { IfOk result (λ read. self.new.lines
            ≡ (if read then self.old.lines + 1 else self.old.lines)) }
    {
        match said {
            Some(line) => {
                self.add(alloc, line)?;
                Ok(true)
            }
            None => Ok(false),
        }
    }

    // One more line said this.
    fn add(&mut self, alloc: Global, line: ScriptLine) -> Result<(), NoMemory>
        requires fits { self.old.lines + 1 < 2 ^ 32 }
        requires new { CanFollow self.old line }
        ensures { OnOk result (self.new ≡ line_said (line_meant line) self.old) }
    {
        put_opened(&mut self.opened, &line)?;
        put_closed(&mut self.closed, &line)?;
        self.script.push(alloc, line)?;
        self.lines += 1;
        Ok(())
    }

    /// The script of the lines; where the text of a reload goes on to the end, the number of its first line.
    pub fn into_script(self) -> Result<Script, u32>
        ensures { result ≡ said_by self }
    {
        let Progress {
            lines: _,
            opened: _,
            closed: _,
            block,
            script,
        } = self;
        match block {
            Some(block) => Err(block.line),
            None => Ok(script),
        }
    }
}

// An empty line, or one that begins with `#`.
fn is_blank(text: &[u8]) -> bool
    ensures { result ≡ is_blank_line text.now }
{
    match text {
        [] => true,
        [first, ..] => *first == b'#',
    }
}

fn put_opened(opened: &mut NumberList, line: &ScriptLine) -> Result<(), NoMemory>
    requires { OpensNew line.now opened.old }
    ensures { OnOk result (opened.new ≡ opened.old ++ opened_by (line_meant line.now)) }
{
    match line {
        ScriptLine::Happens(Event::Opened(conn)) => opened.push(*conn),
        _ => Ok(()),
    }
}

fn put_closed(closed: &mut NumberList, line: &ScriptLine) -> Result<(), NoMemory>
    requires { ClosesNew line.now closed.old }
    ensures { OnOk result (closed.new ≡ closed.old ++ closed_by (line_meant line.now)) }
{
    match line {
        ScriptLine::Happens(Event::Closed(conn)) => closed.push(*conn),
        _ => Ok(()),
    }
}
