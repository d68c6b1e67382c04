//! The requests of ADS.

/// A request, with the data that it borrows from its payload.
///
/// | command | fields, in bytes |
/// |---|---|
/// | 1 `DeviceInfo`, 4 `State` | none |
/// | 2 `Read` | group 4, offset 4, length 4 |
/// | 3 `Write` | group 4, offset 4, length 4, data |
/// | 5 `Control` | ADS state 2, device state 2, length 4, data |
/// | 6 `Add` | group 4, offset 4, length 4, mode 4, max delay 4, cycle time 4, reserved 16 |
/// | 7 `Delete` | handle 4 |
/// | 8 `Note` | any bytes: a server takes no notification |
/// | 9 `ReadWrite` | group 4, offset 4, read length 4, write length 4, data |
///
/// Every number is little-endian. Beckhoff Information System, "ADS Commands".
#[derive(Clone, Copy, Debug, PartialEq, Eq)]
pub enum Request<'a> {
    DeviceInfo,
    Read {
        group: u32,
        offset: u32,
        len: u32,
    },
    Write {
        group: u32,
        offset: u32,
        bytes: &'a [u8],
    },
    State,
    Control {
        ads: u16,
        device: u16,
        bytes: &'a [u8],
    },
    Add {
        group: u32,
        offset: u32,
        len: u32,
        mode: u32,
        delay: u32,
        cycle: u32,
    },
    Delete {
        handle: u32,
    },
    Note(&'a [u8]),
    ReadWrite {
        group: u32,
        offset: u32,
        read_len: u32,
        bytes: &'a [u8],
    },
}
