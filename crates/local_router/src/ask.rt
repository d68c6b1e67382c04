//! What a client asks of the AMS router on its own machine.

/// One packet to the router: the head of AMS/TCP, command 2 bytes and length 4, with no AMS packet behind it.
///
/// | asked | command | data | answer |
/// |---|---|---|---|
/// | a port | 0x1000 | the wanted port 2, 0 for any | NetId 6, port 2 |
/// | the NetId | 0x1002 | none | NetId 6 |
#[derive(Clone, Copy, Debug, PartialEq, Eq)]
pub enum Ask {
    /// To be connected to this port; 0 is any.
    Connect(u16),
    /// The NetId of the machine.
    LocalNetId,
}
