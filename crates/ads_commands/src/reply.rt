//! The replies of ADS.

/// What a device tells of itself: its version, and its name, filled with NULs to 16 bytes.
///
/// Beckhoff Information System, "ADS Read Device Info".
#[derive(Clone, Copy, Debug, PartialEq, Eq)]
pub struct DeviceFacts {
    pub major: u8,
    pub minor: u8,
    pub build: u16,
    pub name: [u8; 16],
}

/// A reply, with the data that it borrows from its payload. The first number is the result, a return code.
///
/// | command | fields behind the result, in bytes |
/// |---|---|
/// | 1 `Info` | major 1, minor 1, build 2, name 16 |
/// | 2 `Read`, 9 `ReadWrite` | length 4, data |
/// | 3 `Write`, 5 `Control`, 7 `Delete` | none |
/// | 4 `State` | ADS state 2, device state 2 |
/// | 6 `Add` | notification handle 4 |
///
/// Every number is little-endian. Beckhoff Information System, "ADS Commands".
#[derive(Clone, Copy, Debug, PartialEq, Eq)]
pub enum Reply<'a> {
    Info(u32, DeviceFacts),
    Read(u32, &'a [u8]),
    Write(u32),
    State(u32, u16, u16),
    Control(u32),
    Add(u32, u32),
    Delete(u32),
    ReadWrite(u32, &'a [u8]),
}
