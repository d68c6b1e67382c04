//! What the words of a client command ask.

use cli_words::Text;

/// What a client asks of a server, with the names and numbers of the words.
#[derive(Drop)]
pub enum ClientTask {
    /// The device's name and version.
    Info,
    /// Its ADS state and device state.
    State,
    /// All symbols.
    List,
    /// It is to take these states, each of at most 65,535.
    Control {
        ads: u64,
        device: u64,
    },
    /// The value of a symbol.
    Get {
        name: Text,
    },
    /// Its leaves: the plain types, texts and enumerations that its value is made of.
    Show {
        name: Text,
    },
    /// A symbol is to have this value.
    Set {
        name: Text,
        value: Text,
    },
    /// So many samples of a symbol, 1 to 1,000,000, on a change or at each cycle, which has 32 bits and counts 100 ns.
    Watch {
        name: Text,
        change: bool,
        cycle: u64,
        count: u64,
    },
}
