//! The calls of the client.

use ads_base::Octets;

/// When a peer sends the samples of a notification.
#[derive(Clone, Copy, Debug, PartialEq, Eq)]
pub enum Mode2 {
    /// At each cycle.
    Cycle,
    /// At a cycle by which the value has changed.
    Change,
}

/// What a call asks of a device.
///
/// Beckhoff Information System, "ADS Commands".
#[derive(Debug, Drop)]
pub enum Call {
    /// The device's name and version.
    Info,
    /// Its ADS state and device state.
    State,
    /// It is to take this ADS state and this device state.
    Control(u16, u16),
    /// The value of the symbol with this name.
    Get(Octets),
    /// The symbol with this name is to have the value of this text.
    Set(Octets, Octets),
    /// All symbols.
    List,
    /// So many samples of the symbol with this name; the cycle counts 100 ns.
    Watch {
        name: Octets,
        mode: Mode2,
        cycle: u32,
        count: u32,
    },
    /// The leaves of the symbol with this name: the plain types, texts and enumerations that its value is made of.
    Show(Octets),
}
