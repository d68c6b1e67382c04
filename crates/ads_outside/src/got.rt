//! What reading a file answers.

use ads_base::Octets;

/// The answer to a read.
#[derive(Debug, Drop)]
pub enum Got {
    /// The bytes of the file, at most 16,777,216.
    Bytes(Octets),
    /// The file has more than 16,777,216 bytes.
    TooLong,
    /// The file could not be read, also where it is not there; a fault was counted.
    Failed,
    /// Memory was wanting.
    Memory,
}
