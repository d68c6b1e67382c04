//! What the words of `record` ask.

use cli_words::{ClientWords, Text, TextList};

/// What is recorded, with the names and numbers of the words: samples of 1 to 16 symbols, on a change or at each cycle, which
/// has 32 bits and counts 100 ns, 1 to 1,000,000 in all, in the table of a store.
#[derive(Drop)]
pub struct RecordTask {
    pub names: TextList,
    pub change: bool,
    pub cycle: u64,
    pub count: u64,
    pub store: Text,
    pub client: ClientWords,
}
