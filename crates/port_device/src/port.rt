//! One port: its symbols, its bytes and its state words.

ghost use Rattle.std.specs.Prelude.{◌≡◌, ℕ};
ghost use Rattle.ads_commands.specs.Reply.{facts_meant};
ghost use Rattle.type_layout.specs.Descriptions.{sizes_of};
ghost use Rattle.port_device.specs.PortMemory.{PortMemory};
ghost use Rattle.port_device.specs.Manners.{is_wide};

use crate::Manner;
use crate::uploads::UploadSizes;
use ads_commands::DeviceFacts;
use process_image::Image;
use std::alloc::Global;
use std::marker::Model;
use std::sync::Arc;
use symbol_table::Table;
use type_layout::{DeviceFacts4, Sizes, Types};

/// A port of a plant. Contracts see what its description says of it, the manner of its server, and its bytes: the areas one
/// behind another, the two state words, and the symbol version.
#[derive(Drop)]
pub struct Port {
    pub(crate) types: Arc<Types, Global>,
    pub(crate) ams_port: u16,
    pub(crate) facts: DeviceFacts4,
    pub(crate) sizes: Sizes,
    pub(crate) table: Table,
    pub(crate) version: u8,
    pub(crate) manner: Manner,
    pub(crate) ads: u16,
    pub(crate) device: u16,
    pub(crate) image: Image,
    pub(crate) uploads: UploadSizes,
    // At each signal's number the number of the symbol that it writes.
    pub(crate) bound: Vec<Option<u32>>,
    // For each 64 bytes of the image whether a symbol stands there that not everybody may write.
    pub(crate) marks: Vec<bool>,
}

impl Model for Port {
    ghost use Rattle.port_device.specs.PortMemory.{PortMemory};

    ghost Value = { PortMemory };

    ghost use Rattle.port_device.specs.Ports.{memory_in, IsPortMemory};

    ghost view = { memory_in };

    ghost invariant = { λ p. IsPortMemory p.sizes p.uploads p.bound.items p.marks.items (memory_in p) };
}

impl Port {
    /// The port's number in an address. Beckhoff Information System, "AMS Header".
    #[inline(always)]
    pub fn number(&self) -> u16
        ensures { result ≡ self.now.number }
    {
        self.ams_port
    }

    /// The ADS state and the device state. Beckhoff Information System, "ADS Read State".
    pub fn state(&self) -> (u16, u16)
        ensures ads { result.0 ≡ self.now.bytes.ads }
        ensures device { result.1 ≡ self.now.bytes.device }
    {
        (self.ads, self.device)
    }

    /// The symbol version, which rises by one at each accepted reload.
    pub fn version(&self) -> u8
        ensures { result ≡ self.now.bytes.version }
    {
        self.version
    }

    /// Whether the server is the wide one, which no reload changes.
    pub fn is_wide(&self) -> bool
        ensures { result ≡ is_wide self.now.manner }
    {
        match self.manner {
            Manner::Strict => false,
            Manner::Wide => true,
        }
    }

    /// What the device tells of itself. Beckhoff Information System, "ADS Read Device Info".
    pub fn facts(&self) -> DeviceFacts
        ensures { facts_meant result ≡ self.now.facts }
    {
        let DeviceFacts4 {
            major,
            minor,
            build,
            name,
        } = self.facts;
        DeviceFacts {
            major,
            minor,
            build,
            name,
        }
    }

    /// The sizes of the areas.
    pub fn sizes(&self) -> &Sizes
        ensures { sizes_of result.now ≡ self.now.table.sizes }
    {
        &self.sizes
    }
}
