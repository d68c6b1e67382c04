//! Each command by its positional words and its options.

ghost use Rattle.cli_words.specs.Reading.{Reads};
ghost use Rattle.cli_words.specs.Commands.{file_in, name_in, number_in, two_files, files_in, two_texts, texts_in};
ghost use Rattle.cli_words.specs.Commands.{two_numbers, numbers_in, three_files, three_files_in};
ghost use Rattle.cli_words.specs.Commands.{client_alone, relay_over_script, relay_over_wire, relay_in, command_in};
ghost use Rattle.cli_words.specs.Commands.{selftest_in, check_in, migrate_in, replay_in, serve_in, keep_in, load_in, info_in};
ghost use Rattle.cli_words.specs.Commands.{state_in, list_in, control_in, get_in, show_in, set_in, watch_in, record_in};

use crate::client::{client, file_at, samples, server};
use crate::division::Division;
use crate::form::Form;
use crate::refusal::Refusal;
use crate::values::{file, names, number, text};
use crate::{ClientWords, Command, Text};
use std::alloc::Global;

/// The command of a name, by the words behind it.
#[tactic(auto, unfolding(crate::specs::Commands::command_in))]
pub(crate) fn command(alloc: Global, form: Form, words: Division) -> Result<Command, Refusal>
    ensures { Reads result (command_in form words) }
{
    match form {
        Form::Selftest => selftest(alloc, &words),
        Form::Check => check(alloc, &words),
        Form::Replay => replay(alloc, &words),
        Form::Serve => serve(alloc, &words),
        Form::Load => load(&words),
        Form::Info => info(alloc, &words),
        Form::State => state(alloc, &words),
        Form::List => list(alloc, &words),
        Form::Control => control(alloc, &words),
        Form::Get => get(alloc, &words),
        Form::Set => set(alloc, &words),
        Form::Watch => watch(alloc, &words),
        Form::Migrate => migrate(alloc, &words),
        Form::Show => show(alloc, &words),
        Form::Relay => relay(alloc, &words),
        Form::Keep => keep(alloc, &words),
        Form::Record => make_record(alloc, words),
    }
}

#[tactic(auto, unfolding(crate::specs::Commands::selftest_in))]
fn selftest(alloc: Global, words: &Division) -> Result<Command, Refusal>
    ensures { Reads result (selftest_in words.now) }
{
    let script = one_file(alloc, words)?;
    Ok(Command::Selftest { script })
}

#[tactic(auto, unfolding(crate::specs::Commands::check_in))]
fn check(alloc: Global, words: &Division) -> Result<Command, Refusal>
    ensures { Reads result (check_in words.now) }
{
    let description = one_file(alloc, words)?;
    Ok(Command::Check { description })
}

#[tactic(auto, unfolding(crate::specs::Commands::migrate_in))]
fn migrate(alloc: Global, words: &Division) -> Result<Command, Refusal>
    ensures { Reads result (migrate_in words.now) }
{
    let description = one_file(alloc, words)?;
    Ok(Command::Migrate { description })
}

#[tactic(auto, unfolding(crate::specs::Commands::replay_in))]
fn replay(alloc: Global, words: &Division) -> Result<Command, Refusal>
    ensures { Reads result (replay_in words.now) }
{
    let (description, script) = two_files(alloc, words)?;
    Ok(Command::Replay {
        description,
        script,
    })
}

#[tactic(auto, unfolding(crate::specs::Commands::serve_in))]
fn serve(alloc: Global, words: &Division) -> Result<Command, Refusal>
    ensures { Reads result (serve_in words.now) }
{
    let description = one_file(alloc, words)?;
    let (listen, events) = server(alloc, words.options.as_slice())?;
    Ok(Command::Serve {
        description,
        listen,
        events,
    })
}

#[tactic(auto, unfolding(crate::specs::Commands::relay_in))]
fn relay(alloc: Global, words: &Division) -> Result<Command, Refusal>
    ensures { Reads result (relay_in words.now) }
{
    if words.options.len() == 0 {
        relay_over_script(alloc, words)
    } else {
        relay_over_wire(alloc, words)
    }
}

#[tactic(auto, unfolding(crate::specs::Commands::relay_over_script))]
fn relay_over_script(alloc: Global, words: &Division) -> Result<Command, Refusal>
    ensures { Reads result (relay_over_script words.now) }
{
    let (description, script) = two_files(alloc, words)?;
    Ok(Command::Relay {
        description,
        script,
    })
}

#[tactic(auto, unfolding(crate::specs::Commands::relay_over_wire))]
fn relay_over_wire(alloc: Global, words: &Division) -> Result<Command, Refusal>
    ensures { Reads result (relay_over_wire words.now) }
{
    let description = one_file(alloc, words)?;
    let (listen, events) = server(alloc, words.options.as_slice())?;
    Ok(Command::RelayServe {
        description,
        listen,
        events,
    })
}

#[tactic(auto, unfolding(crate::specs::Commands::keep_in))]
fn keep(alloc: Global, words: &Division) -> Result<Command, Refusal>
    ensures { Reads result (keep_in words.now) }
{
    let (description, script, store) = three_files(alloc, words)?;
    Ok(Command::Keep {
        description,
        script,
        store,
    })
}

#[tactic(auto, unfolding(crate::specs::Commands::load_in))]
fn load(words: &Division) -> Result<Command, Refusal>
    ensures { Reads result (load_in words.now) }
{
    let n = one_number(words, 0, 100_000)?;
    Ok(Command::Load { n })
}

#[tactic(auto, unfolding(crate::specs::Commands::info_in))]
fn info(alloc: Global, words: &Division) -> Result<Command, Refusal>
    ensures { Reads result (info_in words.now) }
{
    let client = client_alone(alloc, words)?;
    Ok(Command::Info(client))
}

#[tactic(auto, unfolding(crate::specs::Commands::state_in))]
fn state(alloc: Global, words: &Division) -> Result<Command, Refusal>
    ensures { Reads result (state_in words.now) }
{
    let client = client_alone(alloc, words)?;
    Ok(Command::State(client))
}

#[tactic(auto, unfolding(crate::specs::Commands::list_in))]
fn list(alloc: Global, words: &Division) -> Result<Command, Refusal>
    ensures { Reads result (list_in words.now) }
{
    let client = client_alone(alloc, words)?;
    Ok(Command::List(client))
}

#[tactic(auto, unfolding(crate::specs::Commands::control_in))]
fn control(alloc: Global, words: &Division) -> Result<Command, Refusal>
    ensures { Reads result (control_in words.now) }
{
    let (ads, device) = two_numbers(words)?;
    let client = client(alloc, words.options.as_slice())?;
    Ok(Command::Control {
        ads,
        device,
        client,
    })
}

#[tactic(auto, unfolding(crate::specs::Commands::get_in))]
fn get(alloc: Global, words: &Division) -> Result<Command, Refusal>
    ensures { Reads result (get_in words.now) }
{
    let name = one_name(alloc, words)?;
    let client = client(alloc, words.options.as_slice())?;
    Ok(Command::Get { name, client })
}

#[tactic(auto, unfolding(crate::specs::Commands::show_in))]
fn show(alloc: Global, words: &Division) -> Result<Command, Refusal>
    ensures { Reads result (show_in words.now) }
{
    let name = one_name(alloc, words)?;
    let client = client(alloc, words.options.as_slice())?;
    Ok(Command::Show { name, client })
}

#[tactic(auto, unfolding(crate::specs::Commands::set_in))]
fn set(alloc: Global, words: &Division) -> Result<Command, Refusal>
    ensures { Reads result (set_in words.now) }
{
    let (name, value) = two_texts(alloc, words)?;
    let client = client(alloc, words.options.as_slice())?;
    Ok(Command::Set {
        name,
        value,
        client,
    })
}

#[tactic(auto, unfolding(crate::specs::Commands::watch_in))]
fn watch(alloc: Global, words: &Division) -> Result<Command, Refusal>
    ensures { Reads result (watch_in words.now) }
{
    let name = one_name(alloc, words)?;
    let (change, cycle, count) = samples(words.options.as_slice())?;
    let client = client(alloc, words.options.as_slice())?;
    Ok(Command::Watch {
        name,
        change,
        cycle,
        count,
        client,
    })
}

#[tactic(auto, unfolding(crate::specs::Commands::record_in))]
fn make_record(alloc: Global, words: Division) -> Result<Command, Refusal>
    ensures { Reads result (record_in words) }
{
    let Division {
        positional,
        options,
    } = words;
    let names = names(positional)?;
    let (change, cycle, count) = samples(options.as_slice())?;
    let store = file_at(alloc, options.as_slice(), "--store")?;
    let client = client(alloc, options.as_slice())?;
    Ok(Command::Record {
        names,
        change,
        cycle,
        count,
        store,
        client,
    })
}

#[tactic(auto, unfolding(crate::specs::Commands::file_in))]
fn one_file(alloc: Global, words: &Division) -> Result<Text, Refusal>
    ensures { Reads result (file_in words.now.positional) }
{
    match words.positional.as_slice() {
        [word] => file(alloc, word),
        _ => Err(Refusal::OffGrammar),
    }
}

#[tactic(auto, unfolding(crate::specs::Commands::name_in))]
fn one_name(alloc: Global, words: &Division) -> Result<Text, Refusal>
    ensures { Reads result (name_in words.now.positional) }
{
    match words.positional.as_slice() {
        [word] => text(alloc, word),
        _ => Err(Refusal::OffGrammar),
    }
}

#[tactic(auto, unfolding(crate::specs::Commands::number_in))]
fn one_number(words: &Division, least: u64, most: u64) -> Result<u64, Refusal>
    ensures { Reads result (number_in least most words.now.positional) }
{
    match words.positional.as_slice() {
        [word] => number(word, least, most),
        _ => Err(Refusal::OffGrammar),
    }
}

#[tactic(auto, unfolding(crate::specs::Commands::files_in))]
fn two_files(alloc: Global, words: &Division) -> Result<(Text, Text), Refusal>
    ensures { Reads result (files_in words.now.positional) }
{
    match words.positional.as_slice() {
        [word, other] => files_of(alloc, word, other),
        _ => Err(Refusal::OffGrammar),
    }
}

#[tactic(auto, unfolding(crate::specs::Commands::two_files))]
fn files_of(alloc: Global, word: &Text, other: &Text) -> Result<(Text, Text), Refusal>
    ensures { Reads result (two_files word.now other.now) }
{
    let first = file(alloc, word)?;
    let second = file(alloc, other)?;
    Ok((first, second))
}

#[tactic(auto, unfolding(crate::specs::Commands::texts_in))]
fn two_texts(alloc: Global, words: &Division) -> Result<(Text, Text), Refusal>
    ensures { Reads result (texts_in words.now.positional) }
{
    match words.positional.as_slice() {
        [word, other] => texts_of(alloc, word, other),
        _ => Err(Refusal::OffGrammar),
    }
}

#[tactic(auto, unfolding(crate::specs::Commands::two_texts))]
fn texts_of(alloc: Global, word: &Text, other: &Text) -> Result<(Text, Text), Refusal>
    ensures { Reads result (two_texts word.now other.now) }
{
    let first = text(alloc, word)?;
    let second = text(alloc, other)?;
    Ok((first, second))
}

#[tactic(auto, unfolding(crate::specs::Commands::numbers_in))]
fn two_numbers(words: &Division) -> Result<(u64, u64), Refusal>
    ensures { Reads result (numbers_in words.now.positional) }
{
    match words.positional.as_slice() {
        [word, other] => numbers_of(word, other),
        _ => Err(Refusal::OffGrammar),
    }
}

#[tactic(auto, unfolding(crate::specs::Commands::two_numbers))]
fn numbers_of(word: &Text, other: &Text) -> Result<(u64, u64), Refusal>
    ensures { Reads result (two_numbers word.now other.now) }
{
    let first = number(word, 0, 65_535)?;
    let second = number(other, 0, 65_535)?;
    Ok((first, second))
}

#[tactic(auto, unfolding(crate::specs::Commands::three_files_in))]
fn three_files(alloc: Global, words: &Division) -> Result<(Text, Text, Text), Refusal>
    ensures { Reads result (three_files_in words.now.positional) }
{
    match words.positional.as_slice() {
        [word, other, last] => three_files_of(alloc, word, other, last),
        _ => Err(Refusal::OffGrammar),
    }
}

#[tactic(auto, unfolding(crate::specs::Commands::three_files))]
fn three_files_of(
    alloc: Global,
    word: &Text,
    other: &Text,
    last: &Text,
) -> Result<(Text, Text, Text), Refusal>
    ensures { Reads result (three_files word.now other.now last.now) }
{
    let first = file(alloc, word)?;
    let second = file(alloc, other)?;
    let third = file(alloc, last)?;
    Ok((first, second, third))
}

#[tactic(auto, unfolding(crate::specs::Commands::client_alone))]
fn client_alone(alloc: Global, words: &Division) -> Result<ClientWords, Refusal>
    ensures { Reads result (client_alone words.now) }
{
    if words.positional.len() != 0 {
        return Err(Refusal::OffGrammar);
    }
    let client = client(alloc, words.options.as_slice())?;
    Ok(client)
}
