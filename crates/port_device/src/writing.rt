//! Writes of an area's bytes, of a bit, of a symbol's bytes, and of the state words.

ghost use Rattle.std.specs.Prelude.{◌≡◌, ◌↔◌, ◌≤◌, ◌<◌, ◌+◌, [], ◌∷◌, ◌==◌, ◌||◌, length, map, min, Some, IsTrue, OnErr};
ghost use Rattle.spec_plant.specs.Description.{size_in};
ghost use Rattle.spec_plant.specs.World.{PlantPort};
ghost use Rattle.spec_formats.specs.Groups.{group_of};
ghost use Rattle.spec_machine.specs.World.{World, name_at, names_at};
ghost use Rattle.spec_machine.specs.Access.{WholeByte, OneBit};
ghost use Rattle.spec_machine.specs.Client as client;
ghost use Rattle.spec_machine.specs.Writes.{Asker, write_act, write_group, control_act};
ghost use Rattle.spec_machine.specs.WritableBytes.{MayWriteSymbolsAt};
ghost use Rattle.index_groups.specs.Groups.{group_meant};
ghost use Rattle.type_layout.specs.Descriptions.{area_of, rights_of};
ghost use Rattle.port_device.specs.Accesses.{EndsWrite};
ghost use Rattle.port_device.specs.Answers.{IsPlaceOf, IsNamed};
ghost use Rattle.port_device.specs.Endings.{EndsAs, IsAsker, KeepsDescription, place_write_act};
ghost use Rattle.port_device.specs.Groups.{is_written_by_port, written_by_port};
ghost use Rattle.port_device.specs.Holds.{HoldsPort};

use crate::areas::{put_bit, put_bytes, span_of};
use crate::marks::are_clear;
use crate::port::Port;
use crate::writable::{may_control, may_write, may_write_all};
use ads_base::NetId;
use index_groups::{Group, PROCESS_BYTES, Reach};
use return_codes::Code;
use symbol_table::Place;
use type_layout::{Area, Rights};

/// The ADS state Run.
pub const RUN: u16 = 5;

/// The ADS state Stop.
pub const STOP: u16 = 6;

impl Port {
    /// Writes bytes of an area, or a bit, for a machine with these rights.
    ///
    /// | refused by | where |
    /// |---|---|
    /// | 0x702 | the group names no bytes and no bit |
    /// | 0x704 | the rights are those to read alone |
    /// | 0x703, 0x705 | as a read of the range is |
    /// | 0x704 | a byte is one of a read-only symbol, or of one that has writers, of which this machine is none |
    ///
    /// Beckhoff Information System, "ADS Write".
    pub fn write(
        &mut self,
        group: u32,
        offset: u32,
        bytes: &[u8],
        rights: Rights,
        source: NetId,
    ) -> Result<(), Code>
        ensures answer { (w : World) (c : client.Client) (k : Asker) → HoldsPort w k.port self.old
            → IsAsker k (rights_of rights) source.bytes
            → EndsAs w k.port (write_group c k (written_by_port (group_of group)) offset bytes.now) result self.new }
        ensures err { OnErr result (self.new ≡ self.old) }
        ensures keeps { KeepsDescription self.old self.new }
    {
        // Most writes are of data. Where the group is known, no table of groups is asked.
        if group == PROCESS_BYTES {
            return self.write_range(Group::Bytes(Area::Process), offset, bytes, rights, source);
        }
        self.write_apart(group, offset, bytes, rights, source)
    }

    // The same, apart from the code of the caller.
    #[inline(never)]
    fn write_apart(
        &mut self,
        group: u32,
        offset: u32,
        bytes: &[u8],
        rights: Rights,
        source: NetId,
    ) -> Result<(), Code>
        ensures answer { EndsWrite self.old (group_of group) offset bytes.now (rights_of rights) source.bytes result self.new }
        ensures err { OnErr result (self.new ≡ self.old) }
        ensures keeps { KeepsDescription self.old self.new }
    {
        match Group::of(group) {
            Some(group) => self.write_range(group, offset, bytes, rights, source),
            None => Err(Code::C702),
        }
    }

    // The same of a group that is known.
    #[inline(always)]
    fn write_range(
        &mut self,
        group: Group,
        offset: u32,
        bytes: &[u8],
        rights: Rights,
        source: NetId,
    ) -> Result<(), Code>
        ensures answer { EndsWrite self.old (Some (group_meant group)) offset bytes.now (rights_of rights) source.bytes result self.new }
        ensures err { OnErr result (self.new ≡ self.old) }
        ensures keeps { KeepsDescription self.old self.new }
    {
        if !is_written(group) {
            return Err(Code::C702);
        }
        if !may_write(rights) {
            return Err(Code::C704);
        }
        match group.reach(&self.sizes, offset, short_len(bytes)) {
            Ok(Reach::Bytes { area, at, len: _ }) => self.write_bytes(area, at, bytes, source),
            Ok(Reach::Bit { area, at, bit }) => self.write_bit(area, at, bit, bytes[0], source),
            Ok(Reach::Size { area: _ }) => Err(Code::C702),
            Err(code) => Err(code),
        }
    }

    /// Writes the first bytes of a symbol or a part of it. 0x704 comes first, by the rights, and last, by the symbol; between
    /// them 0x705, where the place has fewer bytes.
    pub fn write_place(
        &mut self,
        place: Place,
        bytes: &[u8],
        rights: Rights,
        source: NetId,
    ) -> Result<(), Code>
        requires { IsPlaceOf self.old.table place }
        ensures answer { (w : World) (named : client.Place) (k : Asker) → HoldsPort w k.port self.old
            → IsNamed w k.port place named → IsAsker k (rights_of rights) source.bytes
            → EndsAs w k.port (place_write_act k named bytes.now) result self.new }
        ensures err { OnErr result (self.new ≡ self.old) }
        ensures keeps { KeepsDescription self.old self.new }
    {
        if !may_write(rights) {
            return Err(Code::C704);
        }
        // Read, so that the place is known to lie in its area.
        let _known = &self.table;
        if bytes.len() > place.len as usize {
            return Err(Code::C705);
        }
        self.write_bytes(place.area, place.at, bytes, source)
    }

    /// Sets the ADS state and the device state. 0x704 without the right to control, and 0x706 where the ADS state is neither
    /// Run nor Stop. Beckhoff Information System, "ADS Write Control".
    pub fn control(&mut self, ads: u16, device: u16, rights: Rights) -> Result<(), Code>
        ensures answer { (w : World) (k : Asker) → HoldsPort w k.port self.old → k.rights ≡ rights_of rights
            → EndsAs w k.port (control_act k ads device) result self.new }
        ensures err { OnErr result (self.new ≡ self.old) }
        ensures keeps { KeepsDescription self.old self.new }
    {
        if !may_control(rights) {
            return Err(Code::C704);
        }
        if !is_settable(ads) {
            return Err(Code::C706);
        }
        self.ads = ads;
        self.device = device;
        Ok(())
    }

    // Bytes are written to an area, where the symbols that stand there may be written.
    fn write_bytes(&mut self, area: Area, at: u32, bytes: &[u8], source: NetId) -> Result<(), Code>
        requires { at + length bytes.now ≤ size_in self.old.table.sizes (area_of area) }
        ensures answer { (w : World) (k : Asker) → HoldsPort w k.port self.old → k.address.net ≡ source.bytes
            → EndsAs w k.port (write_act k bytes.now (Ok (map WholeByte (names_at k.port (area_of area) at (length bytes.now)))))
            result self.new }
        ensures err { OnErr result (self.new ≡ self.old) }
        ensures keeps { KeepsDescription self.old self.new }
    {
        if !self.may_write(area, at, bytes.len() as u32, source) {
            return Err(Code::C704);
        }
        put_bytes(&mut self.image, &self.sizes, area, at, bytes);
        Ok(())
    }

    // A bit is written, where the symbol that stands there may be written.
    fn write_bit(
        &mut self,
        area: Area,
        at: u32,
        bit: u8,
        value: u8,
        source: NetId,
    ) -> Result<(), Code>
        requires within { at < size_in self.old.table.sizes (area_of area) }
        requires bit { bit < 8 }
        ensures answer { (w : World) (k : Asker) → HoldsPort w k.port self.old → k.address.net ≡ source.bytes
            → EndsAs w k.port (write_act k (value ∷ []) (Ok (OneBit (name_at k.port (area_of area) at) bit ∷ [])))
            result self.new }
        ensures err { OnErr result (self.new ≡ self.old) }
        ensures keeps { KeepsDescription self.old self.new }
    {
        if !self.may_write(area, at, 1, source) {
            return Err(Code::C704);
        }
        put_bit(&mut self.image, &self.sizes, area, at, bit, value);
        Ok(())
    }

    // Whether a machine may write the symbols that stand at some bytes of an area.
    fn may_write(&self, area: Area, at: u32, len: u32, source: NetId) -> bool
        requires { at + len ≤ size_in self.now.table.sizes (area_of area) }
        ensures { (w : World) (p : PlantPort) → HoldsPort w p self.now
            → (IsTrue result ↔ MayWriteSymbolsAt source.bytes p (area_of area) at len) }
    {
        let span = span_of(&self.sizes, area, at, len);
        // Most bytes stand where everybody may write.
        if are_clear(self.marks.as_slice(), span.at, span.len) {
            return true;
        }
        let numbers = self.table.symbols_in(area, at, len);
        may_write_all(self.table.symbols(), numbers, source)
    }
}

// Whether Write reaches bytes or a bit by the group.
#[inline(always)]
fn is_written(group: Group) -> bool
    ensures { result ≡ is_written_by_port (Some (group_meant group)) }
{
    match group {
        Group::Bytes(_) | Group::Bit(_) => true,
        Group::Size(_) | Group::Handle(_) | Group::Name(_) => false,
        Group::Version | Group::Upload(_) | Group::Sum(_) => false,
    }
}

// The ADS states that a controller may be set to.
fn is_settable(ads: u16) -> bool
    ensures { result ≡ ((ads == RUN) || (ads == STOP)) }
{
    ads == RUN || ads == STOP
}

// The number of the bytes, at most 4,294,967,295.
fn short_len(bytes: &[u8]) -> u32
    ensures { result ≡ min (length bytes.now) 4294967295 }
{
    u32::try_from(bytes.len()).unwrap_or(u32::MAX)
}
