//! Who asks.

use ads_base::AmsAddr;
use type_layout::Rights;

/// The source of a packet, with the rights of its route.
#[derive(Clone, Copy)]
pub(crate) struct Asker {
    pub(crate) source: AmsAddr,
    pub(crate) rights: Rights,
}
