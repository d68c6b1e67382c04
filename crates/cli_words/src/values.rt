//! What the texts of words mean: numbers, addresses, NetIds, file names, names.

ghost use Rattle.std.specs.Prelude.{◌≡◌, ◌&&◌, nat_lt, nat_le, length, is_some, option_map, Some};
ghost use Rattle.cli_words.specs.Reading.{Reads};
ghost use Rattle.cli_words.specs.Values.{number_of, behind_byte, stopped_bytes, net_id_of, is_host, address_port, address_of};
ghost use Rattle.cli_words.specs.Values.{file_of, text_of, on_change_of, stands_in, are_distinct, are_texts, names_of};

use crate::division::part;
use crate::refusal::Refusal;
use crate::{Text, TextList};
use ads_base::{NetId, NoMemory, read_decimal};
use std::alloc::Global;

/// The greatest length of a name or a value, in bytes.
const MAX_TEXT: usize = 65_536;

/// The greatest number of names.
const MAX_NAMES: usize = 16;

/// The number of a decimal text, in a range.
pub(crate) fn number(word: &Text, least: u64, most: u64) -> Result<u64, Refusal>
    ensures { Reads result (number_of least most word.now) }
{
    number_in(word.as_str(), least, most).ok_or(Refusal::OffGrammar)
}

fn number_in(text: &str, least: u64, most: u64) -> Option<u64>
    ensures { result ≡ number_of least most text.now }
{
    let n = read_decimal(text.as_bytes())?;
    if least <= n && n <= most {
        Some(n)
    } else {
        None
    }
}

/// The NetId of a text.
pub(crate) fn net_id(word: &Text) -> Result<NetId, Refusal>
    ensures { Reads result (net_id_of word.now) }
{
    match NetId::read(word.as_str().as_bytes()) {
        Some(net) => Ok(net),
        None => Err(Refusal::OffGrammar),
    }
}

/// A text that is an address.
#[tactic(auto, unfolding(crate::specs::Values::address_of))]
pub(crate) fn address(alloc: Global, word: &Text) -> Result<Text, Refusal>
    ensures { Reads result (address_of word.now) }
{
    match port_of_address(word.as_str()) {
        Some(_) => copied(alloc, word),
        None => Err(Refusal::OffGrammar),
    }
}

fn copied(alloc: Global, word: &Text) -> Result<Text, Refusal>
    ensures { Reads result (Some word.now) }
{
    match Text::copy_of(alloc, word.as_str()) {
        Ok(copy) => Ok(copy),
        Err(NoMemory) => Err(Refusal::Memory),
    }
}

#[tactic(auto, unfolding(crate::specs::Values::address_port))]
fn port_of_address(text: &str) -> Option<u64>
    ensures { result ≡ address_port text.now }
{
    let (host, port) = part(text, ':')?;
    if is_host(host) {
        number_in(port, 1, 65_535)
    } else {
        None
    }
}

fn is_host(text: &str) -> bool
    ensures { result ≡ is_host text.now }
{
    text == "localhost" || four_bytes(text).is_some()
}

#[tactic(auto, unfolding(crate::specs::Values::stopped_bytes, crate::specs::Values::behind_byte))]
fn four_bytes(text: &str) -> Option<()>
    ensures { is_some result ≡ is_some (stopped_bytes 4 text.now) }
{
    let rest = behind_byte(text)?;
    let rest = behind_byte(rest)?;
    let last = behind_byte(rest)?;
    number_in(last, 0, 255)?;
    Some(())
}

// What stands behind a number of 0 to 255 and a full stop.
#[tactic(auto, unfolding(crate::specs::Values::behind_byte))]
fn behind_byte(text: &str) -> Option<&str>
    ensures { option_map (λ rest. rest.now) result ≡ behind_byte text.now }
{
    let (byte, rest) = part(text, '.')?;
    number_in(byte, 0, 255)?;
    Some(rest)
}

/// A text that is a file name.
#[tactic(auto, unfolding(crate::specs::Values::file_of))]
pub(crate) fn file(alloc: Global, word: &Text) -> Result<Text, Refusal>
    ensures { Reads result (file_of word.now) }
{
    if word.as_str().is_empty() {
        return Err(Refusal::OffGrammar);
    }
    copied(alloc, word)
}

/// A text that is a name or a value.
#[tactic(auto, unfolding(crate::specs::Values::text_of))]
pub(crate) fn text(alloc: Global, word: &Text) -> Result<Text, Refusal>
    ensures { Reads result (text_of word.now) }
{
    if word.as_str().len() > MAX_TEXT {
        return Err(Refusal::OffGrammar);
    }
    copied(alloc, word)
}

/// Whether samples are sent on a change alone.
#[tactic(auto, unfolding(crate::specs::Values::on_change_of))]
pub(crate) fn on_change(word: &Text) -> Result<bool, Refusal>
    ensures { Reads result (on_change_of word.now) }
{
    let mode = word.as_str();
    if mode == "cycle" {
        return Ok(false);
    }
    if mode == "change" {
        return Ok(true);
    }
    Err(Refusal::OffGrammar)
}

/// Texts that are names.
#[tactic(auto, unfolding(crate::specs::Values::names_of))]
pub(crate) fn names(words: TextList) -> Result<TextList, Refusal>
    ensures { Reads result (names_of words) }
{
    let texts = words.as_slice();
    if texts.is_empty() || texts.len() > MAX_NAMES || !are_texts(texts) || !are_distinct(texts) {
        return Err(Refusal::OffGrammar);
    }
    Ok(words)
}

fn are_texts(words: &[Text]) -> bool
    ensures { result ≡ are_texts words.now }
{
    for word in words {
        if word.as_str().len() > MAX_TEXT {
            return false;
        }
    }
    true
}

fn are_distinct(words: &[Text]) -> bool
    ensures { result ≡ are_distinct words.now }
{
    for at in 0..words.len() {
        if stands_in(&words[at + 1..], words[at].as_str()) {
            return false;
        }
    }
    true
}

fn stands_in(words: &[Text], name: &str) -> bool
    ensures { result ≡ stands_in words.now name.now }
{
    for word in words {
        if word.as_str().eq_ignore_ascii_case(name) {
            return true;
        }
    }
    false
}
