//! What the words ask for, where that is told by files alone.

use cli_words::Text;

/// A command that asks its files alone, with their names. What it prints is put at its end.
#[derive(Drop)]
pub enum FileTask {
    /// A script is played on the built-in description.
    Selftest { script: Text },
    /// A description is checked.
    Check { description: Text },
    /// A script is played on a description.
    Replay { description: Text, script: Text },
    /// A script is played on the relay of a description.
    Relay { description: Text, script: Text },
    /// A script that is made is played on a description that is made, by a number of at most 100,000.
    Load { n: u64 },
    /// A description is printed under schema 2.
    Migrate { description: Text },
}
