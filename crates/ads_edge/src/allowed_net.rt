//! Which IP addresses are let in.

ghost use Rattle.std.specs.Prelude.{◌≡◌, ◌/◌, ◌^◌};
ghost use Rattle.std.specs.List.{list_any};
ghost use Rattle.std.specs.Net.Addr.{IsIpv4Addr, embedded_segments, ipv6_segments};
ghost use Rattle.std.specs.declared.net.ipv4_addr.Ipv4Addr.{Ipv4Addr};
ghost use Rattle.std.specs.declared.net.ipv6_addr.Ipv6Addr.{Ipv6Addr};
ghost use Rattle.std.specs.declared.net.ip_addr.IpAddr.TheVariants.{V4, V6};
ghost use Rattle.ads_edge.specs.AllowedNet.{allows as is_let_in, holds, numbered, numbered_v6};

use std::net::IpAddr;

/// A net of IP addresses: those of the same family whose first bits are those of this address. An IPv4-mapped IPv6 address
/// (`::ffff:a.b.c.d`) counts as the IPv4 address, in a net and elsewhere.
#[derive(Clone, Copy, Debug, PartialEq, Eq)]
pub struct AllowedNet {
    /// An address of the net.
    pub address: IpAddr,
    /// How many first bits count; where the address has fewer, all do.
    pub bits: u8,
}

/// Whether a list of nets lets an address in: one of them holds it, or the list is empty.
pub fn allows(nets: &[AllowedNet], address: IpAddr) -> bool
    ensures { result ≡ is_let_in nets.now address }
{
    nets.is_empty() || one_holds(nets, address)
}

// Whether a net of a list holds an address.
fn one_holds(nets: &[AllowedNet], address: IpAddr) -> bool
    ensures { result ≡ list_any (λ net. holds net address) nets.now }
{
    nets.iter().any(|net| net.holds(address))
}

impl AllowedNet {
    /// Whether the net holds an address.
    pub fn holds(&self, address: IpAddr) -> bool
        ensures { result ≡ holds self.now address }
    {
        let (net_width, net) = number_of(self.address);
        let (width, number) = number_of(address);
        let others = width.saturating_sub(self.bits as u32);
        net_width == width && without_last(net, others) == without_last(number, others)
    }
}

/// An IPv4-mapped IPv6 address is, in nets and for them, the IPv4 address that it maps.
pub fn mapped_is_ipv4()
    ensures { (mapped : Ipv6Addr) (a : Ipv4Addr) → IsIpv4Addr a → ipv6_segments mapped ≡ embedded_segments 0xffff a
        → numbered (V6 mapped) ≡ numbered (V4 a) }
{}

// The width of an address in bits, and its value, the first octet the greatest.
fn number_of(address: IpAddr) -> (u32, u128)
    ensures width { result.0 ≡ (numbered address).width }
    ensures value { result.1 ≡ (numbered address).value }
{
    match address {
        IpAddr::V4(v4) => (32, v4.to_bits() as u128),
        IpAddr::V6(v6) => number_of_v6(v6.to_bits()),
    }
}

// The same of the value of an IPv6 address.
fn number_of_v6(bits: u128) -> (u32, u128)
    ensures width { result.0 ≡ (numbered_v6 bits).width }
    ensures value { result.1 ≡ (numbered_v6 bits).value }
{
    if bits / 4_294_967_296 == 0xffff {
        (32, bits % 4_294_967_296)
    } else {
        (128, bits)
    }
}

// A number without its last bits.
#[tactic(auto, using(crate::proofs::NetLemmas::nothing_left))]
fn without_last(number: u128, bits: u32) -> u128
    ensures { result ≡ number / 2 ^ bits }
{
    match number.checked_shr(bits) {
        Some(left) => left,
        None => 0,
    }
}
