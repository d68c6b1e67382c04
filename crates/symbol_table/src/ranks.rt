//! Kept symbols by rank: a number by which they are put in order, so that a search halves them.

ghost use Rattle.std.specs.Prelude.{◌≡◌, ◌+◌, ◌*◌, ◌<◌, All, MatchOption};
ghost use Rattle.std.specs.List.Sorted.{IsNonDecreasingBy};
ghost use Rattle.symbol_table.specs.Ranks.{area_rank, symbol_rank, byte_rank, IsLastAtMost};
ghost use Rattle.symbol_table.specs.declared.ranks.Ranked.{Ranked};

use type_layout::Area;

/// A kept symbol by its number in the list, and its rank.
#[derive(Clone, Copy, Debug, PartialEq, Eq)]
pub(crate) struct Ranked {
    pub(crate) rank: u64,
    pub(crate) entry: usize,
}

/// Symbols in order of port and number.
pub(crate) fn rank_of_symbol(port: u16, symbol: u32) -> u64
    ensures { result ≡ symbol_rank port symbol }
{
    port as u64 * 4_294_967_296 + symbol as u64
}

/// Bytes in order of port, area and place.
pub(crate) fn rank_of_byte(port: u16, area: Area, at: u32) -> u64
    ensures { result ≡ byte_rank port area at }
{
    (port as u64 * 4 + rank_of_area(area)) * 4_294_967_296 + at as u64
}

fn rank_of_area(area: Area) -> u64
    ensures { result ≡ area_rank area }
{
    match area {
        Area::Inputs => 0,
        Area::Outputs => 1,
        Area::Memory => 2,
        Area::Process => 3,
    }
}

/// The last of those whose rank is at most this one.
pub(crate) fn last_at_most(ranked: &[Ranked], rank: u64) -> Option<Ranked>
    requires { IsNonDecreasingBy (λ (r : Ranked). r.rank) ranked.now }
    ensures { MatchOption result (All (λ (r : Ranked). rank < r.rank) ranked.now)
        (IsLastAtMost ranked.now rank) }
{
    let count = ranked.partition_point(|r| r.rank <= rank);
    if count == 0 {
        return None;
    }
    Some(ranked[count - 1])
}
