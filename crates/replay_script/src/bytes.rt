//! Bytes as hex words in a script.

ghost use Rattle.std.specs.Prelude.{◌≡◌, ◌++◌, IfOk, OnOk};
ghost use Rattle.spec_machine.specs.ScriptLines.{words_of};
ghost use Rattle.spec_machine.specs.ScriptWords.{bytes_of_word, bytes_of_words};
ghost use Rattle.replay_script.specs.Lines.{AppendsWord};

use crate::hex_pairs::read_pairs;
use crate::lines::first_word;
use ads_base::{NoMemory, Octets};
use std::alloc::Global;

/// The bytes of the hex words of a text, or none where a word is no hex word.
pub fn read_bytes(alloc: Global, text: &[u8]) -> Result<Option<Octets>, NoMemory>
    ensures { IfOk result (λ bytes. bytes ≡ bytes_of_words (words_of text.now)) }
{
    let mut bytes = Octets::new(alloc);
    let mut rest = Some(text);
    while let Some(words) = rest {
        let (word, others) = first_word(words);
        if !append_word(alloc, &mut bytes, word)? {
            return Ok(None);
        }
        rest = others;
    }
    Ok(Some(bytes))
}

// Whether the word is a hex word; its bytes are then appended.
fn append_word(alloc: Global, bytes: &mut Octets, word: &[u8]) -> Result<bool, NoMemory>
    ensures { IfOk result (λ is_hex. AppendsWord is_hex bytes.old bytes.new word.now) }
{
    match read_word(alloc, word)? {
        Some(read) => {
            put_read(alloc, bytes, read)?;
            Ok(true)
        }
        None => Ok(false),
    }
}

// The bytes of a hex word.
fn read_word(alloc: Global, word: &[u8]) -> Result<Option<Octets>, NoMemory>
    ensures { IfOk result (λ bytes. bytes ≡ bytes_of_word word.now) }
{
    if word.is_empty() || word.len() % 2 == 1 {
        return Ok(None);
    }
    let mut bytes = vec![in alloc; 0u8; word.len() / 2]?;
    if read_pairs(word, bytes.as_mut_slice()) {
        Ok(Some(Octets::from_vec(bytes)))
    } else {
        Ok(None)
    }
}

// Appends the bytes of a word. Those of the first word are taken as they are, without a copy.
fn put_read(alloc: Global, bytes: &mut Octets, read: Octets) -> Result<(), NoMemory>
    ensures { OnOk result (bytes.new ≡ bytes.old ++ read) }
{
    if bytes.len() == 0 {
        *bytes = read;
        return Ok(());
    }
    bytes.put(alloc, read.as_slice())?;
    Ok(())
}
