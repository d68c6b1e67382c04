//! Whether bytes are the body text of the persistent symbols: walked entry by entry, so that the text is not made.

ghost use Rattle.std.specs.Prelude.{◌≡◌, ◌+◌, ◌*◌, ◌<◌, ◌≤◌, ◌^◌, ◌++◌, length, flat_map, option_map, bytes_eq, All, IfOk, IfSome};
ghost use Rattle.std.specs.Int.{w32, to_le_bytes};
ghost use Rattle.name_paths.specs.Identifier.{lower};
ghost use Rattle.spec_plant.specs.AcceptedTypes.{AreTypes, IsSized};
ghost use Rattle.spec_plant.specs.Listed.{One, Plain};
ghost use Rattle.spec_plant.specs.Plain.{kind_name};
ghost use Rattle.spec_plant.specs.Trees.{tree_of};
ghost use Rattle.spec_machine.specs.World.{World};
ghost use Rattle.spec_persistent.specs.Persistent.{body_of};
ghost use Rattle.spec_store.specs.BodyText.{entry_bytes, body_text};
ghost use Rattle.symbol_table.specs.Rows.{symbol_of_row};
ghost use Rattle.type_layout.specs.Forms.{form_of};
ghost use Rattle.type_layout.specs.NamedTypes.{types_of};
ghost use Rattle.type_layout.specs.Shapes.{kind_of, shape_of_ref};
ghost use Rattle.port_device.specs.Behind.{behind, sized_form};
ghost use Rattle.port_device.specs.Holds.{HoldsPorts};
ghost use Rattle.port_device.specs.PersistentRows.{head_bytes, value_bytes, stored_entry, row_entries, rows_entries, port_entries, ports_entries};
ghost use Rattle.port_device.specs.PersistentRows.{IsStoredRow, HasNumber};

use crate::areas::bytes_of;
use crate::persistent::count_all;
use crate::{Port, Ports};
use ads_base::{NoMemory, Octets};
use std::alloc::Global;
use symbol_table::SymbolRow;
use type_layout::{Elem, Kind, TypeRef, Types, put_form};

impl Ports {
    /// Whether some bytes are the body text of the persistent symbols, as `persistent` appends it. The text is not made:
    /// memory is taken for the form of a type that is not plain, one at a time.
    pub fn persists(&self, alloc: Global, body: &[u8]) -> Result<bool, NoMemory>
        ensures { IfOk result (λ same. (w : World) → HoldsPorts w self.now
            → same ≡ bytes_eq body.now (body_of w.plant w.memory)) }
    {
        is_body(alloc, self.ports.as_slice(), body)
    }
}

fn is_body(alloc: Global, ports: &[Port], body: &[u8]) -> Result<bool, NoMemory>
    ensures same { IfOk result (λ same. length (ports_entries ports.now) < 2 ^ 32
        → same ≡ bytes_eq body.now (body_text (ports_entries ports.now))) }
    ensures numbers { All HasNumber ports.now }
{
    let entries = match behind(body, &count_all(ports).to_le_bytes()) {
        Some(entries) => entries,
        None => return Ok(false),
    };
    match behind_ports(alloc, ports, entries) {
        Ok(Some(rest)) => Ok(rest.is_empty()),
        Ok(None) => Ok(false),
        Err(NoMemory) => Err(NoMemory),
    }
}

// What stands behind the entries of all ports.
fn behind_ports<'a>(
    alloc: Global,
    ports: &[Port],
    bytes: &'a [u8],
) -> Result<Option<&'a [u8]>, NoMemory>
    ensures { IfOk result (λ rest. option_map (λ r. r.now) rest
        ≡ behind (flat_map entry_bytes (ports_entries ports.now)) bytes.now) }
{
    let mut rest = bytes;
    for port in ports {
        match port.behind_entries(alloc, rest) {
            Ok(Some(left)) => rest = left,
            Ok(None) => return Ok(None),
            Err(NoMemory) => return Err(NoMemory),
        }
    }
    Ok(Some(rest))
}

impl Port {
    fn behind_entries<'a>(
        &self,
        alloc: Global,
        bytes: &'a [u8],
    ) -> Result<Option<&'a [u8]>, NoMemory>
        ensures { IfOk result (λ rest. option_map (λ r. r.now) rest
            ≡ behind (flat_map entry_bytes (port_entries self.now)) bytes.now) }
    {
        behind_rows(alloc, self, self.table.symbols(), bytes)
    }

    // Behind the entry of one of its symbols.
    fn behind_entry<'a>(
        &self,
        alloc: Global,
        row: &SymbolRow,
        bytes: &'a [u8],
    ) -> Result<Option<&'a [u8]>, NoMemory>
        requires row { IsStoredRow self.now row.now }
        ensures { IfOk result (λ rest. option_map (λ r. r.now) rest
            ≡ behind (entry_bytes (stored_entry self.now (symbol_of_row row.now))) bytes.now) }
    {
        match behind_head(self.ams_port, row.name.as_slice(), bytes) {
            Some(rest) => {
                let value = bytes_of(&self.image, &self.sizes, row.area, row.at, row.len);
                behind_typed(alloc, &self.types, row.kind.as_ref(), value, rest)
            }
            None => Ok(None),
        }
    }
}

fn behind_rows<'a>(
    alloc: Global,
    port: &Port,
    rows: &[SymbolRow],
    bytes: &'a [u8],
) -> Result<Option<&'a [u8]>, NoMemory>
    requires rows { All (IsStoredRow port.now) rows.now }
    ensures { IfOk result (λ rest. option_map (λ r. r.now) rest
        ≡ behind (flat_map entry_bytes (rows_entries port.now rows.now)) bytes.now) }
{
    let mut rest = bytes;
    for row in rows {
        match behind_row(alloc, port, row, rest) {
            Ok(Some(left)) => rest = left,
            Ok(None) => return Ok(None),
            Err(NoMemory) => return Err(NoMemory),
        }
    }
    Ok(Some(rest))
}

// Behind the entry of a persistent symbol; all bytes of any other.
#[tactic(auto, unfolding(crate::specs::PersistentRows::symbol_entries))]
fn behind_row<'a>(
    alloc: Global,
    port: &Port,
    row: &SymbolRow,
    bytes: &'a [u8],
) -> Result<Option<&'a [u8]>, NoMemory>
    requires row { IsStoredRow port.now row.now }
    ensures { IfOk result (λ rest. option_map (λ r. r.now) rest
        ≡ behind (flat_map entry_bytes (row_entries port.now row.now)) bytes.now) }
{
    if row.persistent {
        port.behind_entry(alloc, row, bytes)
    } else {
        Ok(Some(bytes))
    }
}

// Behind port 2, name length 2, name.
fn behind_head<'a>(ams_port: u16, name: &[u8], bytes: &'a [u8]) -> Option<&'a [u8]>
    requires short { length name.now ≤ 255 }
    ensures { option_map (λ r. r.now) result ≡ behind (head_bytes ams_port name.now) bytes.now }
{
    let word = word_of(ams_port, name.len() as u16);
    behind_both(&word.to_le_bytes(), name, bytes)
}

// Two numbers in one, which is compared in one step.
fn word_of(low: u16, high: u16) -> u32
    ensures { result ≡ low + high * 65536 }
{
    u32::from(low) + u32::from(high) * 65_536
}

// Behind the form of a type, and a value.
fn behind_typed<'a>(
    alloc: Global,
    types: &Types,
    t: TypeRef<'_>,
    value: &[u8],
    bytes: &'a [u8],
) -> Result<Option<&'a [u8]>, NoMemory>
    requires types { AreTypes (types_of types.now) }
    requires sized { IsSized (types_of types.now) (shape_of_ref t) }
    requires short { length value.now < 2 ^ 32 }
    ensures { IfOk result (λ rest. option_map (λ r. r.now) rest
        ≡ behind (value_bytes (form_of (tree_of (types_of types.now) (shape_of_ref t.entry))) value.now) bytes.now) }
{
    if let Some(kind) = plain_kind(t) {
        return Ok(behind_sized(sized_form(kind), value, bytes));
    }
    let mut form = Octets::new(alloc);
    put_form(alloc, types, t, &mut form)?;
    Ok(behind_value(form.as_slice(), value, bytes))
}

// Behind form length 8, form, size 4, bytes.
fn behind_value<'a>(form: &[u8], value: &[u8], bytes: &'a [u8]) -> Option<&'a [u8]>
    requires short { length value.now < 2 ^ 32 }
    ensures { option_map (λ r. r.now) result ≡ behind (value_bytes form.now value.now) bytes.now }
{
    match behind(bytes, &(form.len() as u64).to_le_bytes()) {
        Some(rest) => behind_sized(form, value, rest),
        None => None,
    }
}

// Behind a text, size 4, bytes.
fn behind_sized<'a>(text: &[u8], value: &[u8], bytes: &'a [u8]) -> Option<&'a [u8]>
    requires short { length value.now < 2 ^ 32 }
    ensures { option_map (λ r. r.now) result
        ≡ behind (text.now ++ (to_le_bytes w32 (length value.now) ++ value.now)) bytes.now }
{
    match behind(bytes, text) {
        Some(rest) => behind_both(&(value.len() as u32).to_le_bytes(), value, rest),
        None => None,
    }
}

// Behind two texts.
#[inline(always)]
fn behind_both<'a>(first: &[u8], second: &[u8], bytes: &'a [u8]) -> Option<&'a [u8]>
    ensures { option_map (λ r. r.now) result ≡ behind (first.now ++ second.now) bytes.now }
{
    match behind(bytes, first) {
        Some(rest) => behind(rest, second),
        None => None,
    }
}

// Behind a text.
#[inline(always)]
fn behind<'a>(bytes: &'a [u8], text: &[u8]) -> Option<&'a [u8]>
    ensures { option_map (λ r. r.now) result ≡ behind text.now bytes.now }
{
    bytes.strip_prefix(text)
}

// The kind of a plain type.
fn plain_kind(t: TypeRef<'_>) -> Option<Kind>
    ensures { IfSome result (λ kind. shape_of_ref t.entry ≡ One (Plain (kind_of kind))) }
{
    match t {
        TypeRef::One(Elem::Plain(kind)) => Some(kind),
        _ => None,
    }
}

// The form of a plain type behind its length: the name in lower case.
fn sized_form(kind: Kind) -> &'static [u8]
    ensures { result.now ≡ sized_form (lower (kind_name (kind_of kind))) }
{
    match kind {
        Kind::Bool => b"\x04\0\0\0\0\0\0\0bool",
        Kind::Sint => b"\x04\0\0\0\0\0\0\0sint",
        Kind::Usint => b"\x05\0\0\0\0\0\0\0usint",
        Kind::Byte => b"\x04\0\0\0\0\0\0\0byte",
        Kind::Int => b"\x03\0\0\0\0\0\0\0int",
        Kind::Uint => b"\x04\0\0\0\0\0\0\0uint",
        Kind::Word => b"\x04\0\0\0\0\0\0\0word",
        Kind::Dint => b"\x04\0\0\0\0\0\0\0dint",
        Kind::Udint => b"\x05\0\0\0\0\0\0\0udint",
        Kind::Dword => b"\x05\0\0\0\0\0\0\0dword",
        Kind::Time => b"\x04\0\0\0\0\0\0\0time",
        Kind::Lint => b"\x04\0\0\0\0\0\0\0lint",
        Kind::Ulint => b"\x05\0\0\0\0\0\0\0ulint",
        Kind::Lword => b"\x05\0\0\0\0\0\0\0lword",
        Kind::Real => b"\x04\0\0\0\0\0\0\0real",
        Kind::Lreal => b"\x05\0\0\0\0\0\0\0lreal",
    }
}
