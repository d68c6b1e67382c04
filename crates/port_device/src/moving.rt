//! Where a reload puts the symbols that it keeps.

ghost use Rattle.std.specs.Prelude.{◌≡◌, ◌≤◌, ◌+◌, ◌++◌, List, length, All, IfOk, OnOk, IfSome, option_map};
ghost use Rattle.spec_plant.specs.Listed.{NamedType};
ghost use Rattle.spec_machine.specs.World.{World};
ghost use Rattle.spec_machine.specs.NumberedPlaces.{AreKeptSymbols, KeptSymbol};
ghost use Rattle.symbol_table.specs.Moves.{IsKeptPlace};
ghost use Rattle.symbol_table.specs.Rows.{symbol_of_row, symbols_of_rows};
ghost use Rattle.port_device.specs.Holds.{HoldsPorts, HoldSomeWorld};
ghost use Rattle.port_device.specs.KeptSymbols.{kept_symbol_of, kept_symbols_of};
ghost use Rattle.port_device.specs.PortMemory.{memory_numbered};
ghost use Rattle.port_device.specs.Moved.{entry_of, with_entry, entries_from, entries_of, entries_between, EndsInReach, HasTypes};
ghost use Rattle.port_device.specs.Reloaded.{AreCompared, IsTypedRow};

use crate::kept::have_same_type;
use crate::{Port, Ports};
use ads_base::NoMemory;
use std::alloc::Global;
use symbol_table::{KeptList, KeptPlace, Moves, Place, SymbolRow};
use type_layout::SameTypes;

impl Ports {
    /// The symbols that a reload keeps from these ports to the new ones, each with its whole place before and after.
    pub fn moves(&self, alloc: Global, new: &Ports) -> Result<Moves, NoMemory>
        requires old { HoldSomeWorld self.now }
        requires new { HoldSomeWorld new.now }
        ensures { IfOk result (λ moves. (w v : World) → HoldsPorts w self.now → HoldsPorts v new.now
            → AreKeptSymbols w.plant v.plant (kept_symbols_of moves)) }
    {
        let same = SameTypes::build(alloc, &self.types, &new.types)?;
        let kept = kept_between(alloc, self.ports.as_slice(), new, &same)?;
        let moves = Moves::build(alloc, &kept)?;
        Ok(moves)
    }
}

// The entries of the symbols that new ports keep of old ones.
fn kept_between(
    alloc: Global,
    old: &[Port],
    new: &Ports,
    same: &SameTypes,
) -> Result<KeptList, NoMemory>
    ensures fit { IfOk result (All IsKeptPlace) }
    ensures kept { IfOk result (λ kept. (before types : List NamedType) → AreCompared before types same.now
        → All (HasTypes before) old.now → All (HasTypes types) new.now.ports
        → kept_symbols_of kept ≡ entries_between old.now new.now.ports) }
{
    let mut kept = KeptList::new(alloc);
    for port in old {
        port.put_kept(alloc, new, same, &mut kept)?;
    }
    Ok(kept)
}

impl Port {
    // Appends the entries of the symbols that are kept among new ports.
    fn put_kept(
        &self,
        alloc: Global,
        new: &Ports,
        same: &SameTypes,
        kept: &mut KeptList,
    ) -> Result<(), NoMemory>
        requires { All IsKeptPlace kept.old }
        ensures fit { OnOk result (All IsKeptPlace kept.new) }
        ensures kept { OnOk result ((types : List NamedType) → AreCompared self.now.types types same.now
            → All (HasTypes types) new.now.ports → kept_symbols_of kept.new
            ≡ kept_symbols_of kept.old ++ entries_of self.now (memory_numbered self.now.number new.now.ports)) }
    {
        match new.find(self.ams_port) {
            None => Ok(()),
            Some(now) => {
                put_entries(alloc, self.ams_port, self.table.symbols(), now, same, kept)?;
                Ok(())
            }
        }
    }

    // The entry of a symbol with a number, which was of this AMS port, where it is kept here.
    fn entry_of(
        &self,
        alloc: Global,
        ams_port: u16,
        number: u32,
        row: &SymbolRow,
        same: &SameTypes,
    ) -> Result<Option<KeptPlace>, NoMemory>
        requires { EndsInReach row.now }
        ensures fits { IfOk result (λ entry. IfSome entry IsKeptPlace) }
        ensures entry { IfOk result (λ entry. (before : List NamedType) → AreCompared before self.now.types same.now
            → IsTypedRow before row.now
            → option_map kept_symbol_of entry ≡ entry_of before self.now ams_port number (symbol_of_row row.now)) }
    {
        match self.table.named(alloc, row.name.as_slice())? {
            None => Ok(None),
            Some(place) => {
                let new = &self.table.symbols()[place as usize];
                if have_same_type(same, row, new) {
                    Ok(Some(KeptPlace {
                        port: ams_port,
                        from: whole_place(number, row),
                        to: whole_place(place, new),
                    }))
                } else {
                    Ok(None)
                }
            }
        }
    }
}

// Appends the entries of the symbols of a port that a new one keeps.
fn put_entries(
    alloc: Global,
    ams_port: u16,
    rows: &[SymbolRow],
    now: &Port,
    same: &SameTypes,
    kept: &mut KeptList,
) -> Result<(), NoMemory>
    requires few { length rows.now ≤ 10000 }
    requires ends { All EndsInReach rows.now }
    requires kept { All IsKeptPlace kept.old }
    ensures fit { OnOk result (All IsKeptPlace kept.new) }
    ensures kept { OnOk result ((before : List NamedType) → AreCompared before now.now.types same.now
        → All (IsTypedRow before) rows.now → kept_symbols_of kept.new
        ≡ kept_symbols_of kept.old ++ entries_from before now.now ams_port 0 (symbols_of_rows rows.now)) }
{
    for (number, row) in rows.iter().enumerate() {
        let entry = now.entry_of(alloc, ams_port, number as u32, row, same)?;
        put_entry(alloc, entry, kept)?;
    }
    Ok(())
}

fn put_entry(alloc: Global, entry: Option<KeptPlace>, kept: &mut KeptList) -> Result<(), NoMemory>
    requires entry { IfSome entry IsKeptPlace }
    requires kept { All IsKeptPlace kept.old }
    ensures fit { OnOk result (All IsKeptPlace kept.new) }
    ensures kept { OnOk result ((rest : List KeptSymbol)
        → kept_symbols_of kept.new ++ rest ≡ kept_symbols_of kept.old ++ with_entry (option_map kept_symbol_of entry) rest) }
{
    match entry {
        None => Ok(()),
        Some(entry) => {
            kept.push(alloc, entry)?;
            Ok(())
        }
    }
}

// The place of a whole symbol.
fn whole_place(number: u32, row: &SymbolRow) -> Place
    ensures { result ≡ record { symbol = number; area = row.now.area; «at» = row.now.«at»; len = row.now.len } }
{
    Place {
        symbol: number,
        area: row.area,
        at: row.at,
        len: row.len,
    }
}
