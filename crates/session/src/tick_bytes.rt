//! What the checks of a tick find.

ghost use Rattle.std.specs.Prelude.{◌≡◌, ◌/◌, ◌%◌, ◌^◌, ◌+◌, ◌≤◌, ℕ, [], ◌∷◌, length, take, drop};
ghost use Rattle.spec_plant.specs.Named.{port_numbered};
ghost use Rattle.spec_formats.specs.Ranges.{Bytes, Bit};
ghost use Rattle.spec_machine.specs.World.{World};
ghost use Rattle.spec_machine.specs.WatchedRanges.{InArea, Own};
ghost use Rattle.type_layout.specs.Descriptions.{area_of};
ghost use Rattle.port_device.specs.Holds.{HoldsPorts};
ghost use Rattle.session.specs.Checks.{bytes_found, IsReadable, IsThere};

use port_device::Ports;
use type_layout::Area;

/// Some bytes of a port, lent for reading.
pub(crate) fn bytes_in(ports: &Ports, port: u16, area: Area, at: u32, len: u32) -> &[u8]
    requires { IsReadable ports.now port (InArea (Bytes (area_of area) at len)) }
    ensures bytes { (w : World) → HoldsPorts w ports.now
        → result.now ≡ bytes_found w (port_numbered port w.plant.ports) (InArea (Bytes (area_of area) at len)) }
    ensures len { length result.now ≡ len }
{
    match ports.find(port) {
        Some(found) => found.lent(area, at, len),
        None => unreachable!(),
    }
}

/// The 0 or 1 of a bit of a port.
pub(crate) fn bit_in(ports: &Ports, port: u16, area: Area, at: u32, bit: u8) -> u8
    requires { IsReadable ports.now port (InArea (Bit (area_of area) at bit)) }
    ensures { (w : World) → HoldsPorts w ports.now
        → result ∷ [] ≡ bytes_found w (port_numbered port w.plant.ports) (InArea (Bit (area_of area) at bit)) }
{
    let bytes = bytes_in(ports, port, area, at, 1);
    bit_of(bytes[0], bit)
}

/// A port's own bytes.
pub(crate) fn own_in(ports: &Ports, port: u16) -> [u8; 5]
    requires { IsThere ports.now port }
    ensures { (w : World) (first len : ℕ) → HoldsPorts w ports.now → first + len ≤ 5
        → take len (drop first result) ≡ bytes_found w (port_numbered port w.plant.ports) (Own first len) }
{
    match ports.find(port) {
        Some(found) => found.own(),
        None => unreachable!(),
    }
}

/// So many of some bytes, from one of them on.
pub(crate) fn part_of(bytes: &[u8; 5], first: u8, len: u8) -> &[u8]
    requires { first + len ≤ 5 }
    ensures part { result.now ≡ take len (drop first bytes.now) }
    ensures len { length result.now ≡ len }
{
    let first = usize::from(first);
    &bytes[first..first + usize::from(len)]
}

fn bit_of(byte: u8, bit: u8) -> u8
    ensures { result ≡ (byte / 2 ^ bit) % 2 }
{
    if bit < 8 { (byte >> bit) & 1 } else { 0 }
}
