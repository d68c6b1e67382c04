//! What a server is told beside its description.

use port_device::Manner;
use type_layout::Rights;

/// How a server takes requests, and whom it lets in beside the machines with a route. No reload changes it.
#[derive(Clone, Copy, Debug)]
pub struct Profile {
    /// How requests are taken.
    pub manner: Manner,
    /// The rights of each machine without a route; without these its connection ends.
    pub others: Option<Rights>,
}
