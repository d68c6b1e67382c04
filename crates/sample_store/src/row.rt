//! Recorded samples.

use ads_base::Octets;

/// A sample of a symbol: its number, counted from 1; the symbol's name; the moment, in 100 ns since 1 January 1601; and
/// the bytes.
#[derive(Debug, Drop)]
pub struct Row {
    pub number: u64,
    pub name: Octets,
    pub time: u64,
    pub bytes: Octets,
}
