//! What the words of a command line ask for.

use crate::Given;
use cli_words::Text;

/// What a command line asks for.
#[derive(Drop)]
pub enum Asked {
    /// How the program is used.
    Help,
    /// Which program it is.
    Version,
    /// What the configuration in this file says.
    Check(Text),
    /// A daemon, by the configuration or the description in this file and by what is given in words, which counts first.
    Run(Text, Given),
}
