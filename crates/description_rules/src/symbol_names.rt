//! Description rule 10: names of symbols.
ghost use Rattle.std.specs.Prelude.{◌≡◌, ◌<◌, ◌&&◌, ◌∷◌, [], length, map, IfOk, OnOk};
ghost use Rattle.spec_rules.specs.Places.{first_wrong};
ghost use Rattle.spec_rules.specs.SymbolRules.{wrong_name, is_right_name};
ghost use Rattle.description_rules.specs.NameStarts.{starts_of, start_at, is_none_of, share_none, IsAdded};
ghost use Rattle.description_rules.specs.NextName.{IsNextName, NotesText};
ghost use Rattle.description_table.specs.Views.{port_view, symbol_view};

use crate::seen::{SeenTexts, note};
use ads_base::NoMemory;
use description_table::{WrittenPort, WrittenSymbol};
use name_index::lower_copy;
use name_paths::is_symbol_name;
use std::alloc::Global;

/// Rule 10: names of symbols.
#[tactic(auto, unfolding(spec_rules::specs::SymbolRules::wrong_name))]
pub fn wrong_name(alloc: Global, ports: &[WrittenPort<'_>]) -> Result<Option<u128>, NoMemory>
    ensures { IfOk result (λ place. place ≡ wrong_name (map port_view ports.now)) }
{
    let mut count: u128 = 0;
    for port in ports {
        if let Some(place) = wrong_name_in(alloc, port.symbols.as_slice())? {
            return Ok(Some(count + place as u128));
        }
        count += port.symbols.len() as u128;
    }
    Ok(None)
}

fn wrong_name_in(alloc: Global, symbols: &[WrittenSymbol<'_>]) -> Result<Option<usize>, NoMemory>
    ensures { IfOk result (λ place. place ≡ first_wrong is_right_name [] (map symbol_view symbols.now)) }
{
    let mut whole = SeenTexts::new(alloc);
    let mut starts = SeenTexts::new(alloc);
    first_wrong_name(alloc, &mut whole, &mut starts, symbols)
}

fn first_wrong_name(
    alloc: Global,
    whole: &mut SeenTexts,
    starts: &mut SeenTexts,
    symbols: &[WrittenSymbol<'_>],
) -> Result<Option<usize>, NoMemory>
    requires whole { whole.old ≡ [] }
    requires starts { starts.old ≡ [] }
    ensures { IfOk result (λ place. place ≡ first_wrong is_right_name [] (map symbol_view symbols.now)) }
{
    for (i, symbol) in symbols.iter().enumerate() {
        if !is_right_name(alloc, whole, starts, symbol.name)? {
            return Ok(Some(i));
        }
    }
    Ok(None)
}

// Whether a name is right behind those that came before, of which all are noted whole, and by what they start with.
fn is_right_name(
    alloc: Global,
    whole: &mut SeenTexts,
    starts: &mut SeenTexts,
    name: &[u8],
) -> Result<bool, NoMemory>
    ensures { IfOk result (IsNextName name.now whole.old starts.old whole.new starts.new) }
{
    if !is_symbol_name(name) {
        return Ok(false);
    }
    let text = lower_copy(alloc, name)?;
    note_text(alloc, whole, starts, text.as_slice())
}

// Notes a text that is apart from those that are noted, and tells whether it is.
fn note_text(
    alloc: Global,
    whole: &mut SeenTexts,
    starts: &mut SeenTexts,
    text: &[u8],
) -> Result<bool, NoMemory>
    ensures { IfOk result (NotesText text.now whole.old starts.old whole.new starts.new) }
{
    if !is_apart(whole, starts, text) {
        return Ok(false);
    }
    note(alloc, whole, text)?;
    note_starts(alloc, starts, text)?;
    Ok(true)
}

// Whether no text that is noted starts with this one, and this one with none of them.
fn is_apart(whole: &SeenTexts, starts: &SeenTexts, text: &[u8]) -> bool
    ensures { result ≡ (is_none_of starts.now text.now && share_none whole.now (starts_of text.now)) }
{
    starts.is_new(text) && starts_with_none(whole, text)
}

// Whether neither a text nor what stands before one of its full stops is there.
fn starts_with_none(texts: &SeenTexts, text: &[u8]) -> bool
    ensures { result ≡ share_none texts.now (starts_of text.now) }
{
    for (i, c) in text.iter().enumerate() {
        if !is_new_start(texts, text, i, *c) {
            return false;
        }
    }
    texts.is_new(text)
}

fn is_new_start(texts: &SeenTexts, text: &[u8], i: usize, c: u8) -> bool
    requires { i < length text.now }
    ensures { result ≡ share_none texts.now (start_at text.now i c) }
{
    c != b'.' || texts.is_new(&text[..i])
}

fn note_starts(alloc: Global, texts: &mut SeenTexts, text: &[u8]) -> Result<(), NoMemory>
    ensures { OnOk result (IsAdded (starts_of text.now) texts.old texts.new) }
{
    for (i, c) in text.iter().enumerate() {
        note_start(alloc, texts, text, i, *c)?;
    }
    note(alloc, texts, text)
}

fn note_start(
    alloc: Global,
    texts: &mut SeenTexts,
    text: &[u8],
    i: usize,
    c: u8,
) -> Result<(), NoMemory>
    requires { i < length text.now }
    ensures { OnOk result (IsAdded (start_at text.now i c) texts.old texts.new) }
{
    if c == b'.' {
        note(alloc, texts, &text[..i])
    } else {
        Ok(())
    }
}
