//! The lines that client commands print.

ghost use Rattle.std.specs.Prelude.{◌≡◌, ◌∷◌, ◌++◌, [], codes, take, drop, option_map, IfOk, OnOk};
ghost use Rattle.std.specs.Fmt.{decimal};
ghost use Rattle.spec_formats.specs.ValueText.{before_nul, value_text};
ghost use Rattle.ads_commands.specs.Reply.{facts_meant};
ghost use Rattle.symbol_info.specs.Entry.{entry_meant};
ghost use Rattle.sample_store.specs.Views.{total_told};
ghost use Rattle.spec_client.specs.Printed as printed;
ghost use Rattle.spec_client.specs.TotalLines.{total_text};
ghost use Rattle.spec_client.specs.Leaves as leaves;
ghost use Rattle.client_leaves.specs.Kept.{leaf_kept};

use ads_base::{NoMemory, Octets};
use ads_commands::DeviceFacts;
use client_leaves::Leaf;
use sample_store::Total;
use std::alloc::Global;
use symbol_info::Entry;
use value_text::to_text;

/// `name NAME version MAJOR.MINOR.BUILD`
pub(crate) fn facts_line(alloc: Global, facts: &DeviceFacts) -> Result<Octets, NoMemory>
    ensures { IfOk result (λ text. text ≡ printed.facts_line (facts_meant facts.now)) }
{
    let mut text = Octets::new(alloc);
    text.put(alloc, b"name ")?;
    put_name(alloc, &mut text, &facts.name)?;
    text.put(alloc, b" version ")?;
    put_version(alloc, &mut text, facts)?;
    text.push(alloc, b'\n')?;
    Ok(text)
}

// `MAJOR.MINOR.BUILD`
fn put_version(alloc: Global, text: &mut Octets, facts: &DeviceFacts) -> Result<(), NoMemory>
    ensures { OnOk result (text.new ≡ text.old ++ decimal facts.now.major ++ codes "." ++ decimal facts.now.minor
        ++ codes "." ++ decimal facts.now.build) }
{
    put_decimal(alloc, text, u64::from(facts.major))?;
    text.put(alloc, b".")?;
    put_decimal(alloc, text, u64::from(facts.minor))?;
    text.put(alloc, b".")?;
    put_decimal(alloc, text, u64::from(facts.build))?;
    Ok(())
}

/// `ads S device D`
pub(crate) fn state_line(alloc: Global, ads: u16, device: u16) -> Result<Octets, NoMemory>
    ensures { IfOk result (λ text. text ≡ printed.state_line ads device) }
{
    let mut text = Octets::new(alloc);
    text.put(alloc, b"ads ")?;
    put_decimal(alloc, &mut text, u64::from(ads))?;
    text.put(alloc, b" device ")?;
    put_decimal(alloc, &mut text, u64::from(device))?;
    text.push(alloc, b'\n')?;
    Ok(text)
}

/// `ok`
pub(crate) fn ok_line(alloc: Global) -> Result<Octets, NoMemory>
    ensures { IfOk result (λ text. text ≡ printed.ok_line) }
{
    let mut text = Octets::new(alloc);
    text.put(alloc, b"ok\n")?;
    Ok(text)
}

/// `ended`
pub(crate) fn ended_line(alloc: Global) -> Result<Octets, NoMemory>
    ensures { IfOk result (λ text. text ≡ printed.ended_line) }
{
    let mut text = Octets::new(alloc);
    text.put(alloc, b"ended\n")?;
    Ok(text)
}

/// Name, group, offset, size, flags and type of a symbol.
pub(crate) fn entry_line(alloc: Global, entry: &Entry<'_>) -> Result<Octets, NoMemory>
    ensures { IfOk result (λ text. text ≡ printed.entry_line (entry_meant entry.now)) }
{
    let mut text = Octets::new(alloc);
    put_name(alloc, &mut text, entry.name)?;
    text.push(alloc, b' ')?;
    put_place(alloc, &mut text, entry)?;
    text.push(alloc, b' ')?;
    put_name(alloc, &mut text, entry.kind)?;
    text.push(alloc, b'\n')?;
    Ok(text)
}

// Group, offset, size and flags.
fn put_place(alloc: Global, text: &mut Octets, entry: &Entry<'_>) -> Result<(), NoMemory>
    ensures { OnOk result (text.new ≡ text.old ++ printed.hexadecimal entry.now.group ++ codes " " ++ decimal entry.now.offset
        ++ codes " " ++ decimal entry.now.size ++ codes " " ++ printed.hexadecimal entry.now.flags) }
{
    put_hexadecimal(alloc, text, entry.group)?;
    text.push(alloc, b' ')?;
    put_decimal(alloc, text, u64::from(entry.offset))?;
    text.push(alloc, b' ')?;
    put_decimal(alloc, text, u64::from(entry.size))?;
    text.push(alloc, b' ')?;
    put_hexadecimal(alloc, text, entry.flags)?;
    Ok(())
}

/// The text of a value.
pub(crate) fn value_line(alloc: Global, type_id: u32, bytes: &[u8]) -> Result<Octets, NoMemory>
    ensures { IfOk result (λ text. text ≡ printed.line (value_text type_id bytes.now)) }
{
    let mut text = Octets::new(alloc);
    to_text(alloc, type_id, bytes, &mut text)?;
    text.push(alloc, b'\n')?;
    Ok(text)
}

/// A leaf's path, and the text of its value in the symbol's bytes.
pub(crate) fn leaf_line(alloc: Global, leaf: &Leaf, bytes: &[u8]) -> Result<Octets, NoMemory>
    ensures { IfOk result (λ text. text ≡ leaves.leaf_line bytes.now (leaf_kept leaf.now)) }
{
    let mut text = Octets::new(alloc);
    put_escaped(alloc, &mut text, leaf.path.as_slice())?;
    text.push(alloc, b' ')?;
    let value = bytes_at(bytes, leaf.place as usize, leaf.size as usize);
    to_text(alloc, leaf.type_id, value, &mut text)?;
    text.push(alloc, b'\n')?;
    Ok(text)
}

// So many bytes from a place on, as far as there are.
fn bytes_at(bytes: &[u8], place: usize, size: usize) -> &[u8]
    ensures { result.now ≡ take size (drop place bytes.now) }
{
    if place >= bytes.len() {
        return &[];
    }
    let behind = &bytes[place..];
    if size >= behind.len() {
        return behind;
    }
    &behind[..size]
}

/// A sample's moment, and the text of its value.
pub(crate) fn sample_line(
    alloc: Global,
    time: u64,
    type_id: u32,
    bytes: &[u8],
) -> Result<Octets, NoMemory>
    ensures { IfOk result (λ text. text ≡ printed.sample_line time (value_text type_id bytes.now)) }
{
    let mut text = Octets::new(alloc);
    put_decimal(alloc, &mut text, time)?;
    text.push(alloc, b' ')?;
    to_text(alloc, type_id, bytes, &mut text)?;
    text.push(alloc, b'\n')?;
    Ok(text)
}

/// Appends the line of a recording's name: how many rows it has, and the moment and the value of the last one.
pub fn put_total_line(
    alloc: Global,
    text: &mut Octets,
    name: &[u8],
    type_id: u32,
    total: &Option<Total>,
) -> Result<(), NoMemory>
    ensures { OnOk result (text.new ≡ text.old ++ printed.line (printed.escaped name.now ++ codes " count "
        ++ total_text type_id (option_map total_told total.now))) }
{
    put_escaped(alloc, text, name)?;
    text.put(alloc, b" count ")?;
    put_total(alloc, text, type_id, total)?;
    text.push(alloc, b'\n')?;
    Ok(())
}

fn put_total(
    alloc: Global,
    text: &mut Octets,
    type_id: u32,
    total: &Option<Total>,
) -> Result<(), NoMemory>
    ensures { OnOk result (text.new ≡ text.old ++ total_text type_id (option_map total_told total.now)) }
{
    match total {
        Some(total) => put_found(alloc, text, type_id, total),
        None => text.put(alloc, b"0"),
    }
}

fn put_found(alloc: Global, text: &mut Octets, type_id: u32, total: &Total) -> Result<(), NoMemory>
    ensures { OnOk result (text.new ≡ text.old ++ decimal total.now.count ++ codes " last " ++ decimal total.now.time
        ++ codes " " ++ value_text type_id total.now.bytes) }
{
    put_decimal(alloc, text, total.count)?;
    text.put(alloc, b" last ")?;
    put_decimal(alloc, text, total.time)?;
    text.push(alloc, b' ')?;
    to_text(alloc, type_id, total.bytes.as_slice(), text)?;
    Ok(())
}

// A name: its bytes before the first NUL.
fn put_name(alloc: Global, text: &mut Octets, name: &[u8]) -> Result<(), NoMemory>
    ensures { OnOk result (text.new ≡ text.old ++ printed.name_text name.now) }
{
    put_escaped(alloc, text, part_before_nul(name))
}

fn part_before_nul(bytes: &[u8]) -> &[u8]
    ensures { result.now ≡ before_nul bytes.now }
{
    for i in 0..bytes.len() {
        if bytes[i] == 0 {
            return &bytes[..i];
        }
    }
    bytes
}

/// Appends bytes, each that can't be printed as `\x` and two digits.
#[tactic(auto, unfolding(spec_client::specs::Printed::escaped))]
pub(crate) fn put_escaped(alloc: Global, text: &mut Octets, bytes: &[u8]) -> Result<(), NoMemory>
    ensures { OnOk result (text.new ≡ text.old ++ printed.escaped bytes.now) }
{
    for byte in bytes {
        put_escaped_byte(alloc, text, *byte)?;
    }
    Ok(())
}

fn put_escaped_byte(alloc: Global, text: &mut Octets, byte: u8) -> Result<(), NoMemory>
    ensures { OnOk result (text.new ≡ text.old ++ printed.escaped_byte byte) }
{
    if 0x20 <= byte && byte <= 0x7E {
        text.push(alloc, byte)?;
        return Ok(());
    }
    let digits = hex::encode(alloc, &[byte])?;
    text.put(alloc, b"\\x")?;
    text.put(alloc, digits.as_bytes())?;
    Ok(())
}

/// Appends a number in decimal digits.
pub(crate) fn put_decimal(alloc: Global, text: &mut Octets, n: u64) -> Result<(), NoMemory>
    ensures { OnOk result (text.new ≡ text.old ++ decimal n) }
{
    let digits = format!(in alloc; "{n}")?;
    text.put(alloc, digits.as_bytes())?;
    Ok(())
}

// `0x` and upper-case hexadecimal digits.
fn put_hexadecimal(alloc: Global, text: &mut Octets, n: u32) -> Result<(), NoMemory>
    ensures { OnOk result (text.new ≡ text.old ++ printed.hexadecimal n) }
{
    let digits = format!(in alloc; "0x{n:X}")?;
    text.put(alloc, digits.as_bytes())?;
    Ok(())
}
