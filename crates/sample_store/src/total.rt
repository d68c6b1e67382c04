//! What is told of all rows of a name.

use ads_base::Octets;

/// How many rows a name has, with the moment and the bytes of the row of the greatest number.
#[derive(Debug, Drop)]
pub struct Total {
    pub count: u64,
    pub time: u64,
    pub bytes: Octets,
}
