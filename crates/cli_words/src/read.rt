//! The words of the command line, read.

ghost use Rattle.std.specs.Prelude.{◌≡◌, ◌∷◌, IfOk, IfSome, map, string_bytes};
ghost use Rattle.cli_words.specs.Fits.{FitsCommand};
ghost use Rattle.cli_words.specs.Reading.{Reads};
ghost use Rattle.cli_words.specs.Forms.{are_among, may_stand, options_of};
ghost use Rattle.cli_words.specs.Commands.{command_of};

use crate::Command;
use crate::commands::command;
use crate::division::{OptionWord, divide, value_of_option};
use crate::form::{Form, allows, form_of_name};
use crate::refusal::Refusal;
use ads_base::NoMemory;
use std::alloc::Global;

/// The command of the words behind the program's name. `None` exactly where the words are off the grammar.
///
/// The first word is the command. Behind it stand positional words and options in any order. An option is
/// `--x V`, where V does not begin with `-`, or `--x=V`, and stands at most once; all words behind a word `--` are
/// positional. There are no short forms, no abbreviations, and no help or version options.
pub fn read_words(alloc: Global, words: &[String]) -> Result<Option<Command>, NoMemory>
    ensures command { IfOk result (λ command. command ≡ command_of (map string_bytes words.now)) }
    ensures fits { IfOk result (λ command. IfSome command FitsCommand) }
{
    match command_of_words(alloc, words) {
        Ok(command) => Ok(Some(command)),
        Err(Refusal::OffGrammar) => Ok(None),
        Err(Refusal::Memory) => Err(NoMemory),
    }
}

#[tactic(auto, unfolding(crate::specs::Commands::command_of))]
fn command_of_words(alloc: Global, words: &[String]) -> Result<Command, Refusal>
    ensures { Reads result (command_of (map string_bytes words.now)) }
{
    match words {
        [] => Err(Refusal::OffGrammar),
        [name, others @ ..] => command_of_name(alloc, name.as_str(), others),
    }
}

#[tactic(auto, unfolding(crate::specs::Commands::command_of))]
fn command_of_name(alloc: Global, name: &str, others: &[String]) -> Result<Command, Refusal>
    ensures { Reads result (command_of (name.now ∷ map string_bytes others.now)) }
{
    let Some(form) = form_of_name(name) else {
        return Err(Refusal::OffGrammar);
    };
    let words = divide(alloc, others)?;
    if !are_among(form, words.options.as_slice()) {
        return Err(Refusal::OffGrammar);
    }
    command(alloc, form, words)
}

fn are_among(form: Form, options: &[OptionWord]) -> bool
    ensures { result ≡ are_among (options_of form) options.now }
{
    for at in 0..options.len() {
        if !may_stand(form, options[at].name.as_str(), &options[at + 1..]) {
            return false;
        }
    }
    true
}

// Whether the command may have the option, and none of the later ones is the same.
fn may_stand(form: Form, name: &str, later: &[OptionWord]) -> bool
    ensures { result ≡ may_stand (options_of form) name.now later.now }
{
    allows(form, name) && value_of_option(later, name).is_none()
}
