//! The words of a command line, read so far.

ghost use Rattle.std.specs.Prelude.{◌≡◌, ◌++◌, ◌∷◌, Some, None, OnOk, IfOk};
ghost use Rattle.daemon_words.specs.Reading.{PutsWord, IsValue, IsFile, IsOption, IsPair, option_of, no_word};

use crate::{Field, Given, SetupFault};
use cli_words::Text;
use std::alloc::Global;
use std::marker::Model;

/// The option whose value is to come, the file, and what was given.
#[derive(Drop)]
pub(crate) struct WordsRead {
    pending: Option<Field>,
    file: Option<Text>,
    given: Given,
}

impl Model for WordsRead {
    ghost use Rattle.daemon_words.specs.Reading as reading;

    ghost Value = { reading.SoFar };

    ghost view = { λ r. record { pending = r.pending; file = r.file; said = r.given } };
}

impl WordsRead {
    /// No word was read.
    pub(crate) fn new(alloc: Global) -> WordsRead
        ensures { result ≡ no_word }
    {
        WordsRead {
            pending: None,
            file: None,
            given: Given::new(alloc),
        }
    }

    /// One more word: the value of the option before, or a file, or an option, perhaps with its value.
    pub(crate) fn put(&mut self, alloc: Global, word: &str) -> Result<(), SetupFault>
        ensures { OnOk result (PutsWord word.now self.old self.new) }
    {
        match self.pending {
            Some(field) => self.put_value(alloc, field, word),
            None => self.put_first(alloc, word),
        }
    }

    /// The file and what was given, where no value is missing.
    pub(crate) fn end(self) -> Result<(Text, Given), SetupFault>
        ensures { IfOk result (λ (file, given). self ≡ record { pending = None; file = Some file; said = given }) }
    {
        let WordsRead {
            pending,
            file,
            given,
        } = self;
        match (pending, file) {
            (Some(field), _) => Err(SetupFault::NoValue(field)),
            (None, Some(file)) => Ok((file, given)),
            (None, None) => Err(SetupFault::NoFile),
        }
    }

    fn put_value(&mut self, alloc: Global, field: Field, word: &str) -> Result<(), SetupFault>
        requires { self.old.pending ≡ Some field }
        ensures { OnOk result (IsValue word.now self.old self.new) }
    {
        self.given.put_text(alloc, field, word)?;
        self.pending = None;
        Ok(())
    }

    fn put_first(&mut self, alloc: Global, word: &str) -> Result<(), SetupFault>
        requires { self.old.pending ≡ None }
        ensures { OnOk result (PutsWord word.now self.old self.new) }
    {
        if !word.starts_with('-') {
            return self.put_file(alloc, word);
        }
        match word.split_once('=') {
            Some((name, value)) => self.put_pair(alloc, name, value),
            None => self.put_option(alloc, word),
        }
    }

    fn put_file(&mut self, alloc: Global, word: &str) -> Result<(), SetupFault>
        requires { self.old.pending ≡ None }
        ensures { OnOk result (IsFile word.now self.old self.new) }
    {
        let text = Text::copy_of(alloc, word)?;
        if self.file.is_some() {
            return Err(SetupFault::SecondFile(text));
        }
        self.file = Some(text);
        Ok(())
    }

    fn put_option(&mut self, alloc: Global, word: &str) -> Result<(), SetupFault>
        requires { self.old.pending ≡ None }
        ensures { OnOk result (IsOption word.now self.old self.new) }
    {
        let field = field_of(alloc, word)?;
        self.pending = Some(field);
        Ok(())
    }

    fn put_pair(&mut self, alloc: Global, name: &str, value: &str) -> Result<(), SetupFault>
        requires { self.old.pending ≡ None }
        ensures { OnOk result (IsPair (name.now ++ 61 ∷ value.now) self.old self.new) }
    {
        let field = field_of(alloc, name)?;
        self.given.put_text(alloc, field, value)?;
        Ok(())
    }
}

fn field_of(alloc: Global, option: &str) -> Result<Field, SetupFault>
    ensures { IfOk result (λ field. option.now ≡ option_of field) }
{
    match Field::of_option(option) {
        Some(field) => Ok(field),
        None => Err(SetupFault::UnknownOption(Text::copy_of(alloc, option)?)),
    }
}
