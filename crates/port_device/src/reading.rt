//! Reads of an area's bytes, a bit, a size, and of a symbol's bytes.

ghost use Rattle.std.specs.Prelude.{◌≡◌, ◌+◌, ◌≤◌, [], ◌∷◌, ◌++◌, length, map, Some, IfOk, OnOk, OnErr};
ghost use Rattle.spec_plant.specs.Description.{size_in};
ghost use Rattle.spec_plant.specs.World.{PlantPort};
ghost use Rattle.spec_formats.specs.Groups.{group_of};
ghost use Rattle.spec_formats.specs.Ranges.{range_in};
ghost use Rattle.spec_machine.specs.World.{World, names_at, setup_of};
ghost use Rattle.spec_machine.specs.Access.{WholeByte, values_at};
ghost use Rattle.spec_machine.specs.Client as client;
ghost use Rattle.spec_machine.specs.Reads.{fixed_reply, read_group};
ghost use Rattle.type_layout.specs.Descriptions.{area_of};
ghost use Rattle.index_groups.specs.Access.{IsWithin, range_meant};
ghost use Rattle.index_groups.specs.Groups.{group_meant};
ghost use Rattle.port_device.specs.Accesses.{AnswersRead};
ghost use Rattle.port_device.specs.Answers.{AnswersAct, HasRoom, ReadsRange, IsPlaceOf, IsNamed, place_read_act, range_read_act};
ghost use Rattle.port_device.specs.Groups.{without_handles};
ghost use Rattle.port_device.specs.Holds.{HoldsPort};

use crate::areas::{byte_of, bytes_of, size_of};
use crate::bits::bit_of;
use crate::port::Port;
use ads_base::{NoMemory, Octets, put32};
use index_groups::{Group, PROCESS_BYTES, Reach};
use return_codes::Code;
use std::alloc::Global;
use symbol_table::Place;
use type_layout::Area;

impl Port {
    /// Appends what Read gives of a group that needs no handle: the bytes, a bit or the size of an area, the symbol
    /// version, or an upload.
    ///
    /// | refused by | where |
    /// |---|---|
    /// | 0x702 | the group names none of these |
    /// | 0x703 | the range begins outside the area |
    /// | 0x705 | it ends outside; or the size, the version or the upload has more bytes than were asked for, or a type upload more than 2,000,000 |
    ///
    /// Beckhoff Information System, "ADS Read".
    #[inline(always)]
    pub fn read(
        &self,
        alloc: Global,
        group: u32,
        offset: u32,
        len: u32,
        out: &mut Octets,
    ) -> Result<Result<(), Code>, NoMemory>
        ensures answer { IfOk result (λ answer. (w : World) (c : client.Client) (p : PlantPort) → HoldsPort w p self.now
            → AnswersAct w (read_group (setup_of w) c p (without_handles (group_of group)) offset len) answer out.old out.new) }
        ensures no_memory { OnErr result (out.new ≡ out.old) }
    {
        // Most reads are of data. Where the group is known, no table of groups is asked.
        if group == PROCESS_BYTES {
            return self.read_range(alloc, Group::Bytes(Area::Process), offset, len, out);
        }
        self.read_apart(alloc, group, offset, len, out)
    }

    // The same, apart from the code of the caller.
    #[inline(never)]
    fn read_apart(
        &self,
        alloc: Global,
        group: u32,
        offset: u32,
        len: u32,
        out: &mut Octets,
    ) -> Result<Result<(), Code>, NoMemory>
        ensures answer { IfOk result (λ answer. AnswersRead self.now group offset len answer out.old out.new) }
        ensures no_memory { OnErr result (out.new ≡ out.old) }
    {
        match Group::of(group) {
            Some(Group::Version) => self.read_version(alloc, len, out),
            Some(Group::Upload(upload)) => self.read_upload(alloc, upload, len, out),
            Some(group) => self.read_range(alloc, group, offset, len, out),
            None => Ok(Err(Code::C702)),
        }
    }

    // What stands at the range of an area that a group and an offset name.
    #[inline(always)]
    fn read_range(
        &self,
        alloc: Global,
        group: Group,
        offset: u32,
        len: u32,
        out: &mut Octets,
    ) -> Result<Result<(), Code>, NoMemory>
        ensures answer { IfOk result (λ answer. (w : World) (p : PlantPort) → HoldsPort w p self.now
            → AnswersAct w (range_read_act p (range_in (Some (group_meant group)) p.sizes offset len)) answer out.old out.new) }
        ensures no_memory { OnErr result (out.new ≡ out.old) }
    {
        match group.reach(&self.sizes, offset, len) {
            Ok(range) => self.read_reach(alloc, range, out),
            Err(code) => Ok(Err(code)),
        }
    }

    /// Writes the bytes of a range, or the 0 or 1 of a bit, to `out`.
    pub fn peek(&self, r: Reach, out: &mut [u8])
        requires within { IsWithin self.now.table.sizes r }
        requires room { HasRoom r (length out.old) }
        ensures { (w : World) (p : PlantPort) → HoldsPort w p self.now → ReadsRange w p r out.new }
    {
        match r {
            Reach::Bytes { area, at, len } => {
                out.copy_from_slice(bytes_of(&self.image, &self.sizes, area, at, len));
            }
            Reach::Bit { area, at, bit } => {
                let byte = byte_of(&self.image, &self.sizes, area, at);
                out[0] = bit_of(byte, bit);
            }
            Reach::Size { area: _ } => {}
        }
    }

    /// Some bytes of an area, lent for reading.
    pub fn lent(&self, area: Area, at: u32, len: u32) -> &[u8]
        requires { at + len ≤ size_in self.now.table.sizes (area_of area) }
        ensures bytes { (w : World) (p : PlantPort) → HoldsPort w p self.now
            → result.now ≡ values_at w.memory (map WholeByte (names_at p (area_of area) at len)) }
        ensures len { length result.now ≡ len }
    {
        bytes_of(&self.image, &self.sizes, area, at, len)
    }

    /// Appends the first bytes of a symbol or a part of it. 0x705 where it has fewer.
    pub fn read_place(
        &self,
        alloc: Global,
        place: Place,
        len: u32,
        out: &mut Octets,
    ) -> Result<Result<(), Code>, NoMemory>
        requires { IsPlaceOf self.now.table place }
        ensures answer { IfOk result (λ answer. (w : World) (p : PlantPort) (named : client.Place) → HoldsPort w p self.now
            → IsNamed w p place named → AnswersAct w (place_read_act p named len) answer out.old out.new) }
        ensures no_memory { OnErr result (out.new ≡ out.old) }
    {
        if len > place.len {
            return Ok(Err(Code::C705));
        }
        put_field(
            alloc,
            out,
            bytes_of(&self.image, &self.sizes, place.area, place.at, len),
        )?;
        Ok(Ok(()))
    }

    // The symbol version is one byte.
    fn read_version(
        &self,
        alloc: Global,
        len: u32,
        out: &mut Octets,
    ) -> Result<Result<(), Code>, NoMemory>
        ensures answer { IfOk result (λ answer. (w : World) (p : PlantPort) → HoldsPort w p self.now
            → AnswersAct w (fixed_reply len (w.version ∷ [])) answer out.old out.new) }
        ensures no_memory { OnErr result (out.new ≡ out.old) }
    {
        if len == 0 {
            return Ok(Err(Code::C705));
        }
        out.push(alloc, self.version)?;
        Ok(Ok(()))
    }

    // What stands at a range, or the size of an area.
    #[inline(always)]
    fn read_reach(
        &self,
        alloc: Global,
        range: Reach,
        out: &mut Octets,
    ) -> Result<Result<(), Code>, NoMemory>
        requires { IsWithin self.now.table.sizes range }
        ensures answer { IfOk result (λ answer. (w : World) (p : PlantPort) → HoldsPort w p self.now
            → AnswersAct w (range_read_act p (Ok (range_meant range))) answer out.old out.new) }
        ensures no_memory { OnErr result (out.new ≡ out.old) }
    {
        match range {
            Reach::Bytes { area, at, len } => {
                put_field(
                    alloc,
                    out,
                    bytes_of(&self.image, &self.sizes, area, at, len),
                )?;
                Ok(Ok(()))
            }
            Reach::Bit { area, at, bit } => {
                let byte = byte_of(&self.image, &self.sizes, area, at);
                out.push(alloc, bit_of(byte, bit))?;
                Ok(Ok(()))
            }
            Reach::Size { area } => {
                put32(alloc, out, size_of(&self.sizes, area))?;
                Ok(Ok(()))
            }
        }
    }
}

// Appends bytes. Those of a field of four bytes, as most are, are moved in one step and with no call.
#[inline(always)]
fn put_field(alloc: Global, out: &mut Octets, bytes: &[u8]) -> Result<(), NoMemory>
    ensures ok { OnOk result (out.new ≡ out.old ++ bytes.now) }
    ensures no_memory { OnErr result (out.new ≡ out.old) }
{
    match bytes.as_array::<4>() {
        Some(four) => {
            // Copied first, so that nothing tests whether they lie in the room.
            let copied = *four;
            out.put_array(alloc, &copied)
        }
        None => out.put(alloc, bytes),
    }
}
