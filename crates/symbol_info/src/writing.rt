//! Symbol entries are written.

ghost use Rattle.std.specs.Prelude.{◌≡◌, ◌+◌, ◌<◌, ◌^◌, ◌++◌, length, OnOk, OnErr};
ghost use Rattle.ads_base.specs.Octets.{Extends};
ghost use Rattle.spec_formats.specs.SymbolEntry.{entry_bytes, text_bytes};
ghost use Rattle.symbol_info.specs.Parts.{words, lengths};
ghost use Rattle.symbol_info.specs.Entry.{HasShortTexts, entry_meant};

use crate::Entry;
use ads_base::{NoMemory, Octets, put16, put32};
use std::alloc::Global;

/// Appends the entry's text. Its length is 33 plus the three texts, so nothing stands behind the last NUL.
pub fn put_entry(alloc: Global, e: &Entry<'_>, out: &mut Octets) -> Result<(), NoMemory>
    requires { HasShortTexts e.now }
    ensures ok { OnOk result (out.new ≡ out.old ++ entry_bytes (entry_meant e.now)) }
    ensures no_memory { OnErr result (out.new ≡ out.old) }
{
    let before = out.len();
    let put = append_entry(alloc, e, out);
    out.cut_back(before, put)
}

// After an error a part of the entry may stand there.
fn append_entry(alloc: Global, e: &Entry<'_>, out: &mut Octets) -> Result<(), NoMemory>
    requires { HasShortTexts e.now }
    ensures ok { OnOk result (out.new ≡ out.old ++ entry_bytes (entry_meant e.now)) }
    ensures no_memory { OnErr result (Extends out.old out.new) }
{
    let len = 33 + e.name.len() + e.kind.len() + e.comment.len();
    out.reserve(alloc, len)?;
    append_words(alloc, out, len as u32, e.group, e.offset)?;
    append_words(alloc, out, e.size, e.type_id, e.flags)?;
    append_lengths(alloc, e, out)?;
    append_text(alloc, out, e.name)?;
    append_text(alloc, out, e.kind)?;
    append_text(alloc, out, e.comment)?;
    Ok(())
}

// Three numbers of 4 bytes.
fn append_words(alloc: Global, out: &mut Octets, a: u32, b: u32, c: u32) -> Result<(), NoMemory>
    ensures ok { OnOk result (out.new ≡ out.old ++ words a b c) }
    ensures no_memory { OnErr result (Extends out.old out.new) }
{
    put32(alloc, out, a)?;
    put32(alloc, out, b)?;
    put32(alloc, out, c)?;
    Ok(())
}

// Name length 2, type length 2, comment length 2.
fn append_lengths(alloc: Global, e: &Entry<'_>, out: &mut Octets) -> Result<(), NoMemory>
    requires { HasShortTexts e.now }
    ensures ok { OnOk result (out.new ≡ out.old ++ lengths (entry_meant e.now)) }
    ensures no_memory { OnErr result (Extends out.old out.new) }
{
    put16(alloc, out, e.name.len() as u16)?;
    put16(alloc, out, e.kind.len() as u16)?;
    put16(alloc, out, e.comment.len() as u16)?;
    Ok(())
}

// A text and its NUL.
fn append_text(alloc: Global, out: &mut Octets, text: &[u8]) -> Result<(), NoMemory>
    ensures ok { OnOk result (out.new ≡ out.old ++ text_bytes text.now) }
    ensures no_memory { OnErr result (Extends out.old out.new) }
{
    out.put(alloc, text)?;
    out.push(alloc, 0)?;
    Ok(())
}
