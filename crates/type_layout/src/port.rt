//! Ports: facts, sizes of the areas, and symbols.

use crate::Shape;
use ads_base::{ListOf, NetId, Octets};

/// An area of a port's image. Beckhoff Information System, index groups 0xF020, 0xF030, 0x4020 and 0x4040.
#[derive(Clone, Copy, Debug, PartialEq, Eq)]
pub enum Area {
    Inputs,
    Outputs,
    /// The flags.
    Memory,
    /// The data area.
    Process,
}

/// The size of each area in bytes.
#[derive(Clone, Copy, Debug, PartialEq, Eq)]
pub struct Sizes {
    pub inputs: u32,
    pub outputs: u32,
    pub memory: u32,
    pub process: u32,
}

impl Sizes {
    ghost use Rattle.std.specs.Prelude.{◌≡◌};
    ghost use Rattle.spec_plant.specs.Description.{size_in};
    ghost use Rattle.type_layout.specs.Descriptions.{area_of, sizes_of};

    /// The size of an area.
    pub fn in_area(&self, area: Area) -> u32
        ensures { result ≡ size_in (sizes_of self.now) (area_of area) }
    {
        match area {
            Area::Inputs => self.inputs,
            Area::Outputs => self.outputs,
            Area::Memory => self.memory,
            Area::Process => self.process,
        }
    }
}

/// What a device tells of itself: its version, and its name filled with NULs.
#[derive(Clone, Copy, Debug, PartialEq, Eq)]
pub struct DeviceFacts4 {
    pub major: u8,
    pub minor: u8,
    pub build: u16,
    pub name: [u8; 16],
}

/// A list of NetIds.
pub type Nets = ListOf<NetId>;

/// A symbol: a named variable at a place of an area.
#[derive(Debug, Drop)]
pub struct SymbolDesc {
    pub name: Octets,
    pub kind: Shape,
    pub area: Area,
    /// The first byte within the area.
    pub at: u32,
    pub comment: Octets,
    pub persistent: bool,
    pub read_only: bool,
    /// The bytes that it begins with, as many as its type has.
    pub initial: Octets,
    /// The signal that writes it at each tick.
    pub signal: Option<u32>,
    /// The machines that may write it; none named are all.
    pub writers: Nets,
}

/// The symbols of a port, in the order of the description.
pub type Symbols = ListOf<SymbolDesc>;

/// A port.
#[derive(Debug, Drop)]
pub struct PortDesc {
    pub port: u16,
    pub facts: DeviceFacts4,
    pub sizes: Sizes,
    pub symbols: Symbols,
}

/// The ports of a description.
pub type PortList = ListOf<PortDesc>;
