//! Nets of an allow list, read of their texts.

ghost use Rattle.std.specs.Prelude.{◌≡◌, ◌≢◌, ◌<◌, ◌≤◌, ℕ, IfSome, IsNone, decimal};
ghost use Rattle.std.specs.Net.Grammar.{IsIpText};
ghost use Rattle.std.specs.declared.net.ip_addr.IpAddr.{IpAddr as Address};
ghost use Rattle.daemon_words.specs.declared.ip_net.IpNet.{IpNet as Net};
ghost use Rattle.daemon_words.specs.Nets.{HasParts, IsLone, IsPlain, width};

use crate::IpNet;
use ads_base::read_decimal;
use std::net::IpAddr;

/// An address and the number of bits that count.
pub(crate) fn slashed(address: &str, bits: &str) -> Option<IpNet>
    ensures some { IfSome result (λ net. IsPlain net.address × HasParts address.now bits.now net) }
    ensures none { IsNone result → (net : Net) → IsPlain net.address → HasParts address.now bits.now net → ⊥ }
{
    let address = address_of(address)?;
    let bits = bits_of(bits, width_of(&address))?;
    Some(IpNet { address, bits })
}

/// An address alone: all of its bits count.
pub(crate) fn lone(text: &str) -> Option<IpNet>
    ensures some { IfSome result (λ net. IsPlain net.address × IsLone text.now net) }
    ensures none { IsNone result → (net : Net) → IsPlain net.address → IsLone text.now net → ⊥ }
{
    let address = address_of(text)?;
    let bits = width_of(&address);
    Some(IpNet { address, bits })
}

fn address_of(text: &str) -> Option<IpAddr>
    ensures some { IfSome result (λ a. IsPlain a × IsIpText text.now a) }
    ensures none { IsNone result → (a : Address) → IsPlain a → IsIpText text.now a → ⊥ }
{
    match text.parse::<IpAddr>() {
        Ok(IpAddr::V4(address)) => Some(IpAddr::V4(address)),
        Ok(IpAddr::V6(address)) => match address.to_ipv4_mapped() {
            Some(_) => None,
            None => Some(IpAddr::V6(address)),
        },
        Err(_) => None,
    }
}

// How many bits an address has.
fn width_of(address: &IpAddr) -> u8
    ensures width { result ≡ width address.now }
    ensures most { result ≤ 128 }
{
    match address {
        IpAddr::V4(_) => 32,
        IpAddr::V6(_) => 128,
    }
}

// The number of a decimal text, if it is at most this one.
#[tactic(auto, using(crate::proofs::SettleLemmas::not_within))]
fn bits_of(text: &str, most: u8) -> Option<u8>
    ensures some { IfSome result (λ n. (text.now ≡ decimal n) × (n ≤ most)) }
    ensures none { IsNone result → (n : ℕ) → n ≤ most → text.now ≢ decimal n }
{
    match read_decimal(text.as_bytes()) {
        Some(n) => within(n, most),
        None => None,
    }
}

fn within(n: u64, most: u8) -> Option<u8>
    ensures some { IfSome result (λ bits. (bits ≡ n) × (bits ≤ most)) }
    ensures none { IsNone result → most < n }
{
    if n <= u64::from(most) {
        return Some(n as u8);
    }
    None
}
