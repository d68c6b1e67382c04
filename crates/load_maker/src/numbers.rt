//! The numbers of the requests that are made, each with its reason.

/// The number of ADS Read.
pub const READ: u16 = 2;

/// The number of ADS Write.
pub const WRITE: u16 = 3;

/// The number of ADS Add Device Notification.
pub const ADD: u16 = 6;

/// The bytes of a symbol, which is a `DINT`.
pub const SYMBOL_LEN: u32 = 4;

/// The payload of a Read: index group 4, index offset 4, length 4.
pub const READ_LEN: u32 = 12;

/// The payload of a Write of one symbol: the fields of a Read, and the symbol's bytes.
pub const WRITE_LEN: u32 = READ_LEN + SYMBOL_LEN;

/// The payload of an Add Device Notification: index group 4, index offset 4, length 4, mode 4, max delay 4, cycle time 4,
/// reserved 16.
pub const ADD_LEN: u32 = 40;

/// The mode of a notification that is looked at each cycle, and sent where the value has changed.
pub const ON_CHANGE: u32 = 4;

/// The AMS port of the plant.
pub const PLANT_PORT: u16 = 851;

/// Client c has the AMS port c behind this one.
pub const CLIENT_PORTS: u16 = 32768;

/// From one tick to the next: 10 ms, in 100 ns.
pub const TICK: u64 = 100_000;
