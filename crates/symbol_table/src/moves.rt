//! Where a reload puts the bytes of kept symbols.

ghost use Rattle.std.specs.Prelude.{◌≡◌, ◌^◌, ◌<◌, IfOk, IfSome};
ghost use Rattle.symbol_table.specs.Moves.{AreKept, IsInOldWorld, kept_symbol, moved_place, kept_bytes, moved_span, IsKeptPlace, is_symbol, has_bytes};

use crate::index::{index_by_byte, index_by_symbol};
use crate::ranks::{Ranked, last_at_most, rank_of_byte, rank_of_symbol};
use crate::{KeptList, KeptPlace, Place};
use ads_base::NoMemory;
use std::alloc::Global;
use std::marker::Model;
use type_layout::Area;

/// Where a reload puts the bytes of kept symbols. Contracts see the list of the entries that it was
/// built of. A look-up takes no memory, and halves a sorted list.
#[derive(Debug, Drop)]
pub struct Moves {
    kept: Vec<KeptPlace>,
    // By port and number of the symbol.
    by_symbol: Vec<Ranked>,
    // By port, area and first byte; symbols of no byte are left out.
    by_byte: Vec<Ranked>,
}

impl Model for Moves {
    ghost use Rattle.std.specs.Prelude.{List};
    ghost use Rattle.symbol_table.specs.declared.kept.KeptPlace.{KeptPlace};
    ghost use Rattle.symbol_table.specs.Ranks.{AreIndexed};

    ghost Value = { List KeptPlace };

    ghost view = { λ m. m.kept.items };

    ghost invariant = { λ m. AreIndexed m.kept.items m.by_symbol.items m.by_byte.items };
}

impl Moves {
    /// The moves of kept symbols. Both places of an entry have the same length and end before byte
    /// 4,294,967,296, no symbol has two entries, and no byte of the old world is in two.
    pub fn build(alloc: Global, kept: &KeptList) -> Result<Moves, NoMemory>
        requires { AreKept kept.now }
        ensures { IfOk result (λ moves. moves ≡ kept.now) }
    {
        let by_symbol = index_by_symbol(alloc, kept.as_slice())?;
        let by_byte = index_by_byte(alloc, kept.as_slice())?;
        let kept = Vec::from_slice(alloc, kept.as_slice())?;
        Ok(Moves {
            kept,
            by_symbol,
            by_byte,
        })
    }

    /// Where a place is after the reload: as far from its symbol's first byte as before. None exactly
    /// where its symbol is not kept.
    pub fn place(&self, port: u16, p: Place) -> Option<Place>
        requires { IsInOldWorld self.now port p }
        ensures { result ≡ moved_place self.now port p }
    {
        let entry = self.entry_of_symbol(port, p.symbol)?;
        Some(Place {
            symbol: entry.to.symbol,
            area: entry.to.area,
            at: entry.to.at + (p.at - entry.from.at),
            len: p.len,
        })
    }

    /// The area and the first byte of bytes after the reload. None exactly where they are not all of
    /// one kept symbol.
    pub fn span(&self, port: u16, area: Area, at: u32, len: u32) -> Option<(Area, u32)>
        requires { 0 < len }
        ensures { result ≡ moved_span self.now port area at len }
    {
        let entry = self.entry_of_bytes(port, area, at, len)?;
        Some((entry.to.area, entry.to.at + (at - entry.from.at)))
    }

    fn entry_of_symbol(&self, port: u16, symbol: u32) -> Option<KeptPlace>
        ensures found { result ≡ kept_symbol self.now port symbol }
        ensures fits { IfSome result IsKeptPlace }
    {
        let last = last_at_most(self.by_symbol.as_slice(), rank_of_symbol(port, symbol))?;
        let entry = self.kept[last.entry];
        if is_symbol_of(&entry, port, symbol) {
            Some(entry)
        } else {
            None
        }
    }

    fn entry_of_bytes(&self, port: u16, area: Area, at: u32, len: u32) -> Option<KeptPlace>
        requires { 0 < len }
        ensures found { result ≡ kept_bytes self.now port area at len }
        ensures fits { IfSome result IsKeptPlace }
    {
        let last = last_at_most(self.by_byte.as_slice(), rank_of_byte(port, area, at))?;
        let entry = self.kept[last.entry];
        if has_bytes_of(&entry, port, area, at, len) {
            Some(entry)
        } else {
            None
        }
    }
}

// Whether an entry is that of a symbol.
fn is_symbol_of(e: &KeptPlace, port: u16, symbol: u32) -> bool
    ensures found { result ≡ is_symbol port symbol e.now }
    ensures number { e.now.from.symbol < 2 ^ 32 }
{
    let number = e.from.symbol;
    number == symbol && e.port == port
}

// Whether the symbol of an entry has all these bytes of the old world.
fn has_bytes_of(e: &KeptPlace, port: u16, area: Area, at: u32, len: u32) -> bool
    ensures { result ≡ has_bytes port area at len e.now }
{
    e.port == port
        && e.from.area == area
        && e.from.at <= at
        && at as u64 + len as u64 <= e.from.at as u64 + e.from.len as u64
}
