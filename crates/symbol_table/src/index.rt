//! The kept symbols of a reload in order of rank.

ghost use Rattle.std.specs.Prelude.{IfOk};
ghost use Rattle.std.specs.List.Sorted.{IsNonDecreasingBy, IsPermutation};
ghost use Rattle.symbol_table.specs.Ranks.{IsIndex, rank_by_symbol, rank_by_byte, is_any, has_any_byte};
ghost use Rattle.symbol_table.specs.declared.ranks.Ranked.{Ranked};

use crate::KeptPlace;
use crate::ranks::{Ranked, rank_of_byte, rank_of_symbol};
use ads_base::NoMemory;
use std::alloc::Global;

/// All entries, by port and number of the symbol.
pub(crate) fn index_by_symbol(alloc: Global, kept: &[KeptPlace]) -> Result<Vec<Ranked>, NoMemory>
    ensures { IfOk result (λ ranked. IsIndex rank_by_symbol is_any kept.now ranked.items) }
{
    let mut ranked = Vec::new(alloc);
    for (entry, e) in kept.iter().enumerate() {
        let rank = rank_of_symbol(e.port, e.from.symbol);
        ranked.push(Ranked { rank, entry })?;
    }
    put_in_order(&mut ranked);
    Ok(ranked)
}

/// The entries of symbols that have a byte, by port, area and first byte.
pub(crate) fn index_by_byte(alloc: Global, kept: &[KeptPlace]) -> Result<Vec<Ranked>, NoMemory>
    ensures { IfOk result (λ ranked. IsIndex rank_by_byte has_any_byte kept.now ranked.items) }
{
    let mut ranked = Vec::new(alloc);
    for (entry, e) in kept.iter().enumerate() {
        if e.from.len > 0 {
            let rank = rank_of_byte(e.port, e.from.area, e.from.at);
            ranked.push(Ranked { rank, entry })?;
        }
    }
    put_in_order(&mut ranked);
    Ok(ranked)
}

fn put_in_order(ranked: &mut Vec<Ranked>)
    ensures same { IsPermutation ranked.old.items ranked.new.items }
    ensures rises { IsNonDecreasingBy (λ (r : Ranked). r.rank) ranked.new.items }
{
    ranked.sort_unstable_by_key(|r| r.rank);
}
