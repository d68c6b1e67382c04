//! What became of the bytes of a connection that go to the router or to the server.

use ads_base::Octets;

/// What is left of the bytes behind the packets to the router.
#[derive(Debug, Drop)]
pub enum Rest {
    /// The beginning of a packet, or nothing: the next bytes decide.
    Waits(Octets),
    /// No packet to the router: these bytes, and all that follow, are the server's.
    Passes(Octets),
}

/// What is answered to the packets to the router, and what is left behind them.
#[derive(Debug, Drop)]
pub struct Local {
    pub reply: Octets,
    pub rest: Rest,
}
