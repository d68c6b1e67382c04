//! The length and the fields of an entry are written.

ghost use Rattle.std.specs.Prelude.{◌≡◌, ◌+◌, ◌≤◌, ◌++◌, length, flat_map, OnOk, OnErr};
ghost use Rattle.ads_base.specs.Octets.{Extends};
ghost use Rattle.spec_formats.specs.SymbolEntry.{text_bytes};
ghost use Rattle.type_upload.specs.WrittenFields.{fields_meant, IsShort, front_bytes, words, numbers, lengths, texts, bound_bytes};

use ads_base::{NoMemory, Octets, put16, put32};
use std::alloc::Global;
use type_layout::Bound;

// What is written of a type, or of a member of a structure.
#[derive(Clone, Copy)]
pub(crate) struct Fields<'a> {
    pub size: u32,
    pub offset: u32,
    pub type_id: u32,
    pub flags: u32,
    pub name: &'a [u8],
    pub kind: &'a [u8],
    pub comment: &'a [u8],
    pub dims: &'a [Bound],
}

// Length and fields of an entry behind which so many bytes with so many sub entries follow. After an error a part may
// stand there.
pub(crate) fn append_fields(
    alloc: Global,
    f: &Fields<'_>,
    behind: usize,
    subs: u16,
    out: &mut Octets,
) -> Result<(), NoMemory>
    requires short { IsShort f.now }
    requires behind { behind ≤ 1000000 }
    ensures ok { OnOk result (out.new ≡ out.old ++ front_bytes (fields_meant f.now) behind subs) }
    ensures no_memory { OnErr result (Extends out.old out.new) }
{
    let fields_len = 45 + f.name.len() + f.kind.len() + f.comment.len() + 8 * f.dims.len();
    let len = (fields_len + behind) as u32;
    append_numbers(alloc, f, len, out)?;
    append_lengths(alloc, f, subs, out)?;
    append_texts(alloc, f, out)?;
    append_dimensions(alloc, f.dims, out)?;
    Ok(())
}

// The eight numbers of 4 bytes.
fn append_numbers(alloc: Global, f: &Fields<'_>, len: u32, out: &mut Octets) -> Result<(), NoMemory>
    ensures ok { OnOk result (out.new ≡ out.old ++ numbers len (fields_meant f.now)) }
    ensures no_memory { OnErr result (Extends out.old out.new) }
{
    append_words(alloc, out, len, 1, 0)?;
    append_words(alloc, out, 0, f.size, f.offset)?;
    put32(alloc, out, f.type_id)?;
    put32(alloc, out, f.flags)?;
    Ok(())
}

// Three numbers of 4 bytes.
fn append_words(alloc: Global, out: &mut Octets, a: u32, b: u32, c: u32) -> Result<(), NoMemory>
    ensures ok { OnOk result (out.new ≡ out.old ++ words a b c) }
    ensures no_memory { OnErr result (Extends out.old out.new) }
{
    put32(alloc, out, a)?;
    put32(alloc, out, b)?;
    put32(alloc, out, c)?;
    Ok(())
}

// The five numbers of 2 bytes.
fn append_lengths(
    alloc: Global,
    f: &Fields<'_>,
    subs: u16,
    out: &mut Octets,
) -> Result<(), NoMemory>
    requires { IsShort f.now }
    ensures ok { OnOk result (out.new ≡ out.old ++ lengths (length f.now.name.now)
        (length f.now.kind.now) (length f.now.comment.now) (length f.now.dims.now) subs) }
    ensures no_memory { OnErr result (Extends out.old out.new) }
{
    put16(alloc, out, f.name.len() as u16)?;
    put16(alloc, out, f.kind.len() as u16)?;
    put16(alloc, out, f.comment.len() as u16)?;
    put16(alloc, out, f.dims.len() as u16)?;
    put16(alloc, out, subs)?;
    Ok(())
}

fn append_texts(alloc: Global, f: &Fields<'_>, out: &mut Octets) -> Result<(), NoMemory>
    ensures ok { OnOk result (out.new ≡ out.old ++ texts (fields_meant f.now)) }
    ensures no_memory { OnErr result (Extends out.old out.new) }
{
    append_text(alloc, out, f.name)?;
    append_text(alloc, out, f.kind)?;
    append_text(alloc, out, f.comment)?;
    Ok(())
}

// A text and its NUL.
fn append_text(alloc: Global, out: &mut Octets, text: &[u8]) -> Result<(), NoMemory>
    ensures ok { OnOk result (out.new ≡ out.old ++ text_bytes text.now) }
    ensures no_memory { OnErr result (Extends out.old out.new) }
{
    out.put(alloc, text)?;
    out.push(alloc, 0)?;
    Ok(())
}

fn append_dimensions(alloc: Global, dims: &[Bound], out: &mut Octets) -> Result<(), NoMemory>
    ensures ok { OnOk result (out.new ≡ out.old ++ flat_map bound_bytes dims.now) }
    ensures no_memory { OnErr result (Extends out.old out.new) }
{
    for bound in dims {
        append_dimension(alloc, *bound, out)?;
    }
    Ok(())
}

// The lower bound as two's complement, and the number of elements.
fn append_dimension(alloc: Global, bound: Bound, out: &mut Octets) -> Result<(), NoMemory>
    ensures ok { OnOk result (out.new ≡ out.old ++ bound_bytes bound) }
    ensures no_memory { OnErr result (Extends out.old out.new) }
{
    put32(alloc, out, bound.low.cast_unsigned())?;
    put32(alloc, out, bound.count)?;
    Ok(())
}
