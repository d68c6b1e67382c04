//! The commands of the command line.

use crate::{ClientWords, Text, TextList};

/// A command with all that its words say. File names are not empty; NAME and VALUE have at most 65,536 bytes.
#[derive(Drop)]
pub enum Command {
    /// `selftest SCRIPT`
    Selftest {
        script: Text,
    },
    /// `check DESCRIPTION`
    Check {
        description: Text,
    },
    /// `replay DESCRIPTION SCRIPT`
    Replay {
        description: Text,
        script: Text,
    },
    /// `serve DESCRIPTION --listen A --events N`, where N has 64 bits
    Serve {
        description: Text,
        listen: Text,
        events: u64,
    },
    /// `load N`, at most 100,000
    Load {
        n: u64,
    },
    /// `info`
    Info(ClientWords),
    /// `state`
    State(ClientWords),
    /// `list`
    List(ClientWords),
    /// `control ADS DEVICE`, each at most 65,535
    Control {
        ads: u64,
        device: u64,
        client: ClientWords,
    },
    /// `get NAME`
    Get {
        name: Text,
        client: ClientWords,
    },
    /// `set NAME VALUE`
    Set {
        name: Text,
        value: Text,
        client: ClientWords,
    },
    /// `watch NAME --mode M --cycle C --count K`: `change` is true for `--mode change`, the cycle has 32 bits,
    /// and the count is 1 to 1,000,000
    Watch {
        name: Text,
        change: bool,
        cycle: u64,
        count: u64,
        client: ClientWords,
    },
    /// `migrate DESCRIPTION`
    Migrate {
        description: Text,
    },
    /// `show NAME`
    Show {
        name: Text,
        client: ClientWords,
    },
    /// `relay DESCRIPTION SCRIPT`
    Relay {
        description: Text,
        script: Text,
    },
    /// `relay DESCRIPTION --listen A --events N`
    RelayServe {
        description: Text,
        listen: Text,
        events: u64,
    },
    /// `keep DESCRIPTION SCRIPT STORE`
    Keep {
        description: Text,
        script: Text,
        store: Text,
    },
    /// `record NAME.. --store FILE` with the options of `watch`: 1 to 16 names, no two equal, ASCII case aside
    Record {
        names: TextList,
        change: bool,
        cycle: u64,
        count: u64,
        store: Text,
        client: ClientWords,
    },
}
