//! Words divided into positional words and options.

ghost use Rattle.std.specs.Prelude.{◌≡◌, ◌<◌, ◌∷◌, [], option_map, option_copied, OnOk, IfOk, map, string_bytes};
ghost use Rattle.cli_words.specs.Reading.{Reads};
ghost use Rattle.cli_words.specs.Words.{begins_with_dash, option_kind, kind_of, parted, division_of, value_of};
ghost use Rattle.cli_words.specs.Dividing.{TakesWord, finished_by, with_last_option};

use crate::Text;
use crate::refusal::Refusal;
use ads_base::{ListOf, NoMemory};
use std::alloc::Global;

/// An option as it was given.
#[derive(Drop)]
pub(crate) struct OptionWord {
    /// The name, with its two dashes.
    pub(crate) name: Text,
    pub(crate) value: Text,
}

/// The words behind a command.
#[derive(Drop)]
pub(crate) struct Division {
    /// The positional words, in their order.
    pub(crate) positional: ListOf<Text>,
    /// The options, in their order.
    pub(crate) options: ListOf<OptionWord>,
}

/// What a word is, where it is not the value of an option.
#[derive(Drop)]
pub(crate) enum Kind {
    /// `--`: all words behind it are positional.
    EndOfOptions,
    /// A positional word.
    Plain,
    /// `--x=V`
    Joined(Text, Text),
    /// `--x`, whose value is the next word.
    Named,
}

/// What comes behind a word.
#[derive(Drop)]
pub(crate) enum Next {
    /// Words, behind an option that wants its value where there is one.
    Word(Option<Text>),
    /// Positional words alone.
    Positional,
}

/// The division of the words behind a command.
pub(crate) fn divide(alloc: Global, words: &[String]) -> Result<Division, Refusal>
    ensures { Reads result (division_of (map string_bytes words.now)) }
{
    let mut division = Division {
        positional: ListOf::new(alloc),
        options: ListOf::new(alloc),
    };
    let mut pending = None;
    for at in 0..words.len() {
        match take_word(alloc, &mut division, pending, words[at].as_str())? {
            Next::Word(next) => pending = next,
            Next::Positional => {
                add_rest(alloc, &mut division, &words[at + 1..])?;
                return Ok(division);
            }
        }
    }
    match pending {
        None => Ok(division),
        Some(_) => Err(Refusal::OffGrammar),
    }
}

fn take_word(
    alloc: Global,
    division: &mut Division,
    pending: Option<Text>,
    word: &str,
) -> Result<Next, Refusal>
    ensures { TakesWord division.old division.new pending word.now result }
{
    match pending {
        Some(name) => take_value(alloc, division, name, word),
        None => take_first(alloc, division, word),
    }
}

fn take_value(
    alloc: Global,
    division: &mut Division,
    name: Text,
    value: &str,
) -> Result<Next, Refusal>
    ensures { TakesWord division.old division.new (Some name) value.now result }
{
    if begins_with_dash(value) {
        return Err(Refusal::OffGrammar);
    }
    let value = Text::copy_of(alloc, value)?;
    add_option(alloc, division, name, value)?;
    Ok(Next::Word(None))
}

fn take_first(alloc: Global, division: &mut Division, word: &str) -> Result<Next, Refusal>
    ensures { TakesWord division.old division.new None word.now result }
{
    match kind_of_word(alloc, word)? {
        Kind::EndOfOptions => Ok(Next::Positional),
        Kind::Plain => {
            add_positional(alloc, division, word)?;
            Ok(Next::Word(None))
        }
        Kind::Joined(name, value) => {
            add_option(alloc, division, name, value)?;
            Ok(Next::Word(None))
        }
        Kind::Named => {
            let name = Text::copy_of(alloc, word)?;
            Ok(Next::Word(Some(name)))
        }
    }
}

#[tactic(auto, unfolding(crate::specs::Words::kind_of))]
fn kind_of_word(alloc: Global, word: &str) -> Result<Kind, NoMemory>
    ensures { IfOk result (λ kind. kind ≡ kind_of word.now) }
{
    if word == "--" {
        return Ok(Kind::EndOfOptions);
    }
    if !begins_with_dash(word) || word.len() < 2 {
        return Ok(Kind::Plain);
    }
    option_kind(alloc, part(word, '='))
}

fn option_kind(alloc: Global, parts: Option<(&str, &str)>) -> Result<Kind, NoMemory>
    ensures { IfOk result (λ kind. kind ≡ option_kind (option_map (λ p. (p.0.now, p.1.now)) parts.entry)) }
{
    match parts {
        None => Ok(Kind::Named),
        Some((name, value)) => {
            let name = Text::copy_of(alloc, name)?;
            let value = Text::copy_of(alloc, value)?;
            Ok(Kind::Joined(name, value))
        }
    }
}

fn begins_with_dash(word: &str) -> bool
    ensures { result ≡ begins_with_dash word.now }
{
    match word.as_bytes() {
        [] => false,
        [first, ..] => *first == b'-',
    }
}

/// What stands before the first such byte, and what stands behind it.
pub(crate) fn part(text: &str, stop: char) -> Option<(&str, &str)>
    requires { stop < 128 }
    ensures { option_map (λ p. (p.0.now, p.1.now)) result ≡ parted stop text.now }
{
    text.split_once(stop)
}

fn add_positional(alloc: Global, division: &mut Division, word: &str) -> Result<(), NoMemory>
    ensures { OnOk result (division.new ≡ finished_by division.old (word.now ∷ [])) }
{
    let word = Text::copy_of(alloc, word)?;
    division.positional.push(alloc, word)?;
    Ok(())
}

fn add_option(
    alloc: Global,
    division: &mut Division,
    name: Text,
    value: Text,
) -> Result<(), NoMemory>
    ensures { OnOk result (division.new ≡ with_last_option division.old name value) }
{
    division.options.push(alloc, OptionWord { name, value })?;
    Ok(())
}

fn add_rest(alloc: Global, division: &mut Division, words: &[String]) -> Result<(), NoMemory>
    ensures { OnOk result (division.new ≡ finished_by division.old (map string_bytes words.now)) }
{
    for word in words {
        add_positional(alloc, division, word.as_str())?;
    }
    Ok(())
}

/// The value of an option, where it stands.
pub(crate) fn value_of_option<'a>(options: &'a [OptionWord], name: &str) -> Option<&'a Text>
    ensures { option_copied result ≡ value_of name.now options.now }
{
    for option in options {
        if option.name.as_str() == name {
            return Some(&option.value);
        }
    }
    None
}
