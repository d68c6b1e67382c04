//! Recorded samples.

use ads_base::ListOf;

/// What looking a symbol up in a recording answers.
#[derive(Debug, Drop)]
pub enum Recorded {
    /// The samples in their order, each the little-endian number of its bytes.
    Numbers(ListOf<u64>),
    /// The recording has no sample of that name.
    NoName,
    /// A sample has no byte, or more than eight.
    Size,
    /// There are more than 1,048,576 samples.
    TooMany,
    /// The file is not there, is no recording, or another program has it open.
    Failed,
    /// Memory was wanting.
    Memory,
}

/// Recordings, as `ads record` makes them, by the names of their files.
pub trait Recordings {
    /// The samples of a symbol. The recording stays as it is.
    fn samples(&mut self, file: &str, name: &str) -> Recorded;
}

/// No recordings: each is not there.
#[derive(Clone, Copy, Debug)]
pub struct NoRecordings;

impl Recordings for NoRecordings {
    fn samples(&mut self, _file: &str, _name: &str) -> Recorded {
        Recorded::Failed
    }
}
