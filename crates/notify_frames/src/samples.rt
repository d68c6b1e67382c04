//! Samples: what one notification reports.

use ads_base::{ListOf, Octets};

/// A sample that was read: the notification's handle, and the bytes of its symbol. A sample of size 0 says that the
/// notification has ended, which is this project's own choice.
///
/// On the wire: handle 4, size 4, data; every number little-endian. Beckhoff Information System, "ADS Device
/// Notification".
#[derive(Clone, Copy, Debug, PartialEq, Eq)]
pub struct Sample<'a> {
    pub handle: u32,
    pub bytes: &'a [u8],
}

/// A sample with bytes of its own, to be sent.
#[derive(Debug, Drop)]
pub struct OwnSample {
    pub handle: u32,
    pub bytes: Octets,
}

/// Samples of one moment.
pub type Samples = ListOf<OwnSample>;
