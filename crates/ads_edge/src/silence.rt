//! Which connection gives up its place.

ghost use Rattle.std.specs.Prelude.{IfSome, IfNone};
ghost use Rattle.ads_edge.specs.Peers.{IsLongestSilent, NoneIsSilent};

use crate::connection::Connection;

/// After how many beats without a sign of life a connection may lose its place: five minutes.
pub(crate) const SILENT_BEATS: u64 = 30_000;

/// The place of the connection that is silent longest, if that is for five minutes at least.
#[tactic(auto, using(crate::proofs::SilenceLemmas::found_longest, crate::proofs::SilenceLemmas::found_none))]
pub(crate) fn longest_silent(connections: &[Connection], now: u64) -> Option<usize>
    ensures found { IfSome result (IsLongestSilent connections.now now) }
    ensures none { IfNone result (NoneIsSilent connections.now now) }
{
    let mut found = None;
    let mut least = now.saturating_sub(SILENT_BEATS - 1);
    for (place, connection) in connections.iter().enumerate() {
        if connection.alive < least {
            least = connection.alive;
            found = Some(place);
        }
    }
    found
}
