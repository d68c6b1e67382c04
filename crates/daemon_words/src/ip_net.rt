//! Nets of an allow list.

ghost use Rattle.std.specs.Prelude.{◌≤◌};

use crate::net_text::{lone, slashed};
use std::net::IpAddr;

/// A net of IP addresses: those whose first bits are those of its address.
#[derive(Clone, Copy, PartialEq, Eq)]
pub struct IpNet {
    pub address: IpAddr,
    /// How many first bits count: at most 32 of an IPv4 address, and 128 of an IPv6 address.
    pub bits: u8,
    ghost within: { bits ≤ 128 },
}

impl IpNet {
    ghost use Rattle.std.specs.Prelude.{IfSome, IsNone};
    ghost use Rattle.daemon_words.specs.declared.ip_net.IpNet.{IpNet as Net};
    ghost use Rattle.daemon_words.specs.Nets.{IsNetText};

    /// The net of a text: an IP address, or one with a slash and the decimal number of bits that count. An IPv4 address that is
    /// written as an IPv6 address is none.
    pub fn of_text(text: &str) -> Option<IpNet>
        ensures some { IfSome result (IsNetText text.now) }
        ensures none { IsNone result → (net : Net) → IsNetText text.now net → ⊥ }
    {
        match text.split_once('/') {
            Some((address, bits)) => slashed(address, bits),
            None => lone(text),
        }
    }
}
