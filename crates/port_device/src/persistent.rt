//! The body text of the persistent symbols, which a store keeps from run to run.

ghost use Rattle.std.specs.Prelude.{◌≡◌, ◌<◌, ◌≤◌, ◌^◌, ◌++◌, length, count_by, flat_map, All, IsTrue, OnOk, OnErr};
ghost use Rattle.spec_machine.specs.World.{World};
ghost use Rattle.spec_persistent.specs.Persistent.{body_of};
ghost use Rattle.spec_store.specs.BodyText.{entry_bytes, body_text, is_body_text, FitsEntry};
ghost use Rattle.symbol_table.specs.Rows.{symbol_of_row};
ghost use Rattle.type_layout.specs.Spelled.{Extends};
ghost use Rattle.port_device.specs.Holds.{HoldsPorts};
ghost use Rattle.port_device.specs.PersistentRows.{head_bytes, value_bytes, stored_entry, row_entries, rows_entries, port_entries, ports_entries};
ghost use Rattle.port_device.specs.PersistentRows.{IsStoredRow, HasNumber};

use crate::areas::bytes_of;
use crate::{Port, Ports};
use ads_base::{NoMemory, Octets, put16, put32, put64};
use std::alloc::Global;
use symbol_table::SymbolRow;
use type_layout::put_form;

impl Ports {
    /// Appends the body text of the persistent symbols, in the order of ports and symbols: how many there are, and of each
    /// its port, its declared name, the form of its type, and the bytes that it has.
    pub fn persistent(&self, alloc: Global, out: &mut Octets) -> Result<(), NoMemory>
        ensures ok { OnOk result ((w : World) → HoldsPorts w self.now → out.new ≡ out.old ++ body_of w.plant w.memory) }
        ensures is_text { OnOk result ((w : World) → HoldsPorts w self.now → IsTrue (is_body_text (body_of w.plant w.memory))) }
        ensures no_memory { OnErr result (out.new ≡ out.old) }
    {
        let before = out.len();
        let put = append_body(alloc, self.ports.as_slice(), out);
        out.cut_back(before, put)
    }
}

// After want of memory a part of the text may stand there.
fn append_body(alloc: Global, ports: &[Port], out: &mut Octets) -> Result<(), NoMemory>
    ensures ok { OnOk result (length (ports_entries ports.now) < 2 ^ 32 → out.new ≡ out.old ++ body_text (ports_entries ports.now)) }
    ensures fit { OnOk result (All FitsEntry (ports_entries ports.now)) }
    ensures numbers { All HasNumber ports.now }
    ensures no_memory { OnErr result (Extends out.old out.new) }
{
    put32(alloc, out, count_all(ports))?;
    append_ports(alloc, ports, out)
}

// How many persistent symbols all ports have, where 32 bits can tell.
pub(crate) fn count_all(ports: &[Port]) -> u32
    ensures count { length (ports_entries ports.now) < 2 ^ 32 → result ≡ length (ports_entries ports.now) }
    ensures numbers { All HasNumber ports.now }
{
    let mut count = 0u32;
    for port in ports {
        count = count.wrapping_add(port.persistent_count() as u32);
    }
    count
}

// The entries of all ports.
fn append_ports(alloc: Global, ports: &[Port], out: &mut Octets) -> Result<(), NoMemory>
    ensures ok { OnOk result (out.new ≡ out.old ++ flat_map entry_bytes (ports_entries ports.now)) }
    ensures fit { OnOk result (All FitsEntry (ports_entries ports.now)) }
    ensures no_memory { OnErr result (Extends out.old out.new) }
{
    for port in ports {
        port.append_entries(alloc, out)?;
    }
    Ok(())
}

impl Port {
    fn persistent_count(&self) -> usize
        ensures count { result ≡ length (port_entries self.now) }
        ensures few { result ≤ 10000 }
        ensures number { HasNumber self.now }
    {
        // Read, so that its range is known.
        let _ams_port = self.ams_port;
        count_rows(self.table.symbols())
    }

    fn append_entries(&self, alloc: Global, out: &mut Octets) -> Result<(), NoMemory>
        ensures ok { OnOk result (out.new ≡ out.old ++ flat_map entry_bytes (port_entries self.now)) }
        ensures fit { OnOk result (All FitsEntry (port_entries self.now)) }
        ensures no_memory { OnErr result (Extends out.old out.new) }
    {
        append_rows(alloc, self, self.table.symbols(), out)
    }

    // The entry of one of its symbols.
    fn append_entry(&self, alloc: Global, row: &SymbolRow, out: &mut Octets) -> Result<(), NoMemory>
        requires row { IsStoredRow self.now row.now }
        ensures ok { OnOk result (out.new ≡ out.old ++ entry_bytes (stored_entry self.now (symbol_of_row row.now))) }
        ensures fits { OnOk result (FitsEntry (stored_entry self.now (symbol_of_row row.now))) }
        ensures no_memory { OnErr result (Extends out.old out.new) }
    {
        let mut form = Octets::new(alloc);
        put_form(alloc, &self.types, row.kind.as_ref(), &mut form)?;
        let bytes = bytes_of(&self.image, &self.sizes, row.area, row.at, row.len);
        put_head(alloc, self.ams_port, row.name.as_slice(), out)?;
        put_value(alloc, form.as_slice(), bytes, out)
    }
}

fn count_rows(rows: &[SymbolRow]) -> usize
    ensures { result ≡ count_by (λ r. r.persistent) rows.now }
{
    let mut count = 0;
    for row in rows {
        if row.persistent {
            count += 1;
        }
    }
    count
}

fn append_rows(
    alloc: Global,
    port: &Port,
    rows: &[SymbolRow],
    out: &mut Octets,
) -> Result<(), NoMemory>
    requires rows { All (IsStoredRow port.now) rows.now }
    ensures ok { OnOk result (out.new ≡ out.old ++ flat_map entry_bytes (rows_entries port.now rows.now)) }
    ensures fit { OnOk result (All FitsEntry (rows_entries port.now rows.now)) }
    ensures no_memory { OnErr result (Extends out.old out.new) }
{
    for row in rows {
        append_row(alloc, port, row, out)?;
    }
    Ok(())
}

// The entry of a persistent symbol; nothing of any other.
#[tactic(auto, unfolding(crate::specs::PersistentRows::symbol_entries))]
fn append_row(alloc: Global, port: &Port, row: &SymbolRow, out: &mut Octets) -> Result<(), NoMemory>
    requires row { IsStoredRow port.now row.now }
    ensures ok { OnOk result (out.new ≡ out.old ++ flat_map entry_bytes (row_entries port.now row.now)) }
    ensures fit { OnOk result (All FitsEntry (row_entries port.now row.now)) }
    ensures no_memory { OnErr result (Extends out.old out.new) }
{
    if row.persistent {
        port.append_entry(alloc, row, out)
    } else {
        Ok(())
    }
}

// Port 2, name length 2, name.
fn put_head(alloc: Global, ams_port: u16, name: &[u8], out: &mut Octets) -> Result<(), NoMemory>
    requires short { length name.now ≤ 255 }
    ensures ok { OnOk result (out.new ≡ out.old ++ head_bytes ams_port name.now) }
    ensures number { ams_port < 2 ^ 16 }
    ensures no_memory { OnErr result (Extends out.old out.new) }
{
    put16(alloc, out, ams_port)?;
    put16(alloc, out, name.len() as u16)?;
    out.put(alloc, name)?;
    Ok(())
}

// Form length 8, form, size 4, bytes.
fn put_value(alloc: Global, form: &[u8], bytes: &[u8], out: &mut Octets) -> Result<(), NoMemory>
    requires short { length bytes.now < 2 ^ 32 }
    ensures ok { OnOk result (out.new ≡ out.old ++ value_bytes form.now bytes.now) }
    ensures form { length form.now < 2 ^ 64 }
    ensures no_memory { OnErr result (Extends out.old out.new) }
{
    put64(alloc, out, form.len() as u64)?;
    out.put(alloc, form)?;
    put32(alloc, out, bytes.len() as u32)?;
    out.put(alloc, bytes)?;
    Ok(())
}
