//! What the options of a client command say.

use crate::Text;
use ads_base::NetId;

/// Who asks whom.
#[derive(Drop)]
pub struct ClientWords {
    /// The client's own NetId, `--me`.
    pub me: NetId,
    /// The AMS port that is asked, `--port`: 1 to 65,535, and 851 where the option is absent.
    pub port: u64,
    /// Whom it asks.
    pub peer: PeerWords,
}

/// Whom a client asks.
#[derive(Drop)]
pub enum PeerWords {
    /// A server over TCP: its address `HOST:PORT`, `--to`, and its NetId, `--netid`.
    To {
        /// `localhost` or four decimal bytes joined by full stops, then `:` and a port from 1 to 65,535.
        to: Text,
        /// The NetId of the server.
        net: NetId,
    },
    /// A server within the program: the file name of its description, `--local`.
    Local(Text),
}
