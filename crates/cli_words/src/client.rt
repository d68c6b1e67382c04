//! The options of commands: the client's, the server's, and when samples are sent.

ghost use Rattle.std.specs.Prelude.{option_copied};
ghost use Rattle.cli_words.specs.Reading.{Reads};
ghost use Rattle.cli_words.specs.Commands.{number_at, net_at, address_at, file_at, on_change_at, server_of, port_of, peer_of, client_of, samples_of};

use crate::division::{OptionWord, value_of_option};
use crate::refusal::Refusal;
use crate::values::{address, file, net_id, number, on_change};
use crate::{ClientWords, PeerWords, Text};
use ads_base::NetId;
use std::alloc::Global;

/// The AMS port where `--port` is absent.
const DEFAULT_PORT: u64 = 851;

/// The number of an option that has to stand, in a range.
#[tactic(auto, unfolding(crate::specs::Commands::number_at))]
pub(crate) fn number_at(
    options: &[OptionWord],
    name: &str,
    least: u64,
    most: u64,
) -> Result<u64, Refusal>
    ensures { Reads result (number_at least most name.now options.now) }
{
    match value_of_option(options, name) {
        None => Err(Refusal::OffGrammar),
        Some(word) => number(word, least, most),
    }
}

/// The file name of an option that has to stand.
#[tactic(auto, unfolding(crate::specs::Commands::file_at))]
pub(crate) fn file_at(alloc: Global, options: &[OptionWord], name: &str) -> Result<Text, Refusal>
    ensures { Reads result (file_at name.now options.now) }
{
    match value_of_option(options, name) {
        None => Err(Refusal::OffGrammar),
        Some(word) => file(alloc, word),
    }
}

#[tactic(auto, unfolding(crate::specs::Commands::address_at))]
fn address_at(alloc: Global, options: &[OptionWord], name: &str) -> Result<Text, Refusal>
    ensures { Reads result (address_at name.now options.now) }
{
    match value_of_option(options, name) {
        None => Err(Refusal::OffGrammar),
        Some(word) => address(alloc, word),
    }
}

#[tactic(auto, unfolding(crate::specs::Commands::net_at))]
fn net_at(options: &[OptionWord], name: &str) -> Result<NetId, Refusal>
    ensures { Reads result (net_at name.now options.now) }
{
    match value_of_option(options, name) {
        None => Err(Refusal::OffGrammar),
        Some(word) => net_id(word),
    }
}

#[tactic(auto, unfolding(crate::specs::Commands::on_change_at))]
fn on_change_at(options: &[OptionWord], name: &str) -> Result<bool, Refusal>
    ensures { Reads result (on_change_at name.now options.now) }
{
    match value_of_option(options, name) {
        None => Err(Refusal::OffGrammar),
        Some(word) => on_change(word),
    }
}

/// Where a server listens, and after how many events it ends.
#[tactic(auto, unfolding(crate::specs::Commands::server_of))]
pub(crate) fn server(alloc: Global, options: &[OptionWord]) -> Result<(Text, u64), Refusal>
    ensures { Reads result (server_of options.now) }
{
    let events = number_at(options, "--events", 0, u64::MAX)?;
    let listen = address_at(alloc, options, "--listen")?;
    Ok((listen, events))
}

/// The options of every client command.
#[tactic(auto, unfolding(crate::specs::Commands::client_of))]
pub(crate) fn client(alloc: Global, options: &[OptionWord]) -> Result<ClientWords, Refusal>
    ensures { Reads result (client_of options.now) }
{
    let me = net_at(options, "--me")?;
    let port = port(value_of_option(options, "--port"))?;
    let peer = peer(
        alloc,
        value_of_option(options, "--to"),
        value_of_option(options, "--netid"),
        value_of_option(options, "--local"),
    )?;
    Ok(ClientWords { me, port, peer })
}

#[tactic(auto, unfolding(crate::specs::Commands::port_of))]
fn port(word: Option<&Text>) -> Result<u64, Refusal>
    ensures { Reads result (port_of (option_copied word.entry)) }
{
    match word {
        None => Ok(DEFAULT_PORT),
        Some(word) => number(word, 1, 65_535),
    }
}

#[tactic(auto, unfolding(crate::specs::Commands::peer_of))]
fn peer(
    alloc: Global,
    to_word: Option<&Text>,
    net_word: Option<&Text>,
    local_word: Option<&Text>,
) -> Result<PeerWords, Refusal>
    ensures { Reads result (peer_of (option_copied to_word.entry) (option_copied net_word.entry) (option_copied local_word.entry)) }
{
    match (to_word, net_word, local_word) {
        (Some(to), Some(net), None) => {
            let net = net_id(net)?;
            let to = address(alloc, to)?;
            Ok(PeerWords::To { to, net })
        }
        (None, None, Some(local)) => {
            let description = file(alloc, local)?;
            Ok(PeerWords::Local(description))
        }
        _ => Err(Refusal::OffGrammar),
    }
}

/// When samples are sent: on a change alone or not, the cycle, and how many are wanted.
#[tactic(auto, unfolding(crate::specs::Commands::samples_of))]
pub(crate) fn samples(options: &[OptionWord]) -> Result<(bool, u64, u64), Refusal>
    ensures { Reads result (samples_of options.now) }
{
    let change = on_change_at(options, "--mode")?;
    let cycle = number_at(options, "--cycle", 0, 4_294_967_295)?;
    let count = number_at(options, "--count", 1, 1_000_000)?;
    Ok((change, cycle, count))
}
