//! What is asked by name: a value, an info, and an entry.

ghost use Rattle.std.specs.Prelude.{◌≡◌, ◌++◌, IfOk, OnOk, OnErr};
ghost use Rattle.std.specs.Int.{w32, to_le_bytes};
ghost use Rattle.spec_plant.specs.World.{PlantPort};
ghost use Rattle.spec_formats.specs.Groups.{group_of, ValueByName, InfoByName};
ghost use Rattle.spec_machine.specs.World.{World, setup_of};
ghost use Rattle.spec_machine.specs.ByName.{read_write_group};
ghost use Rattle.spec_machine.specs.Client as client;
ghost use Rattle.index_groups.specs.Groups.{byte_number};
ghost use Rattle.type_layout.specs.Descriptions.{area_of};
ghost use Rattle.type_layout.specs.Spelled.{Extends};
ghost use Rattle.port_device.specs.Answers.{AnswersAct};
ghost use Rattle.port_device.specs.Groups.{without_handles};
ghost use Rattle.port_device.specs.Holds.{HoldsPort};

use crate::port::Port;
use ads_base::{NoMemory, Octets, put32};
use index_groups::{Group, NameGroup, byte_group};
use return_codes::Code;
use std::alloc::Global;
use symbol_table::Place;

impl Port {
    /// Appends what ReadWrite gives of a name, where it grants no handle: the first bytes of a value, the info, or the entry.
    ///
    /// | group | gives | refused by |
    /// |---|---|---|
    /// | 0xF004 | as many bytes of the value | 0x710, then 0x705 where it has fewer |
    /// | 0xF007 | byte group 4, offset 4, length 4 | 0x705 for a length below 12, then 0x710 |
    /// | 0xF009 | the symbol entry of the part | 0x710, then 0x705 where it has more bytes |
    /// | any other | | 0x702 |
    ///
    /// Beckhoff Information System, "ADS Read Write".
    pub fn ask(
        &self,
        alloc: Global,
        group: u32,
        len: u32,
        name: &[u8],
        out: &mut Octets,
    ) -> Result<Result<(), Code>, NoMemory>
        ensures answer { IfOk result (λ answer. (w : World) (c : client.Client) (p : PlantPort) → HoldsPort w p self.now
            → AnswersAct w (read_write_group (setup_of w) c p (without_handles (group_of group)) len name.now) answer out.old out.new) }
        ensures no_memory { OnErr result (out.new ≡ out.old) }
    {
        match Group::of(group) {
            Some(Group::Name(NameGroup::Value)) => self.value_by_name(alloc, len, name, out),
            Some(Group::Name(NameGroup::Info)) => self.info_by_name(alloc, len, name, out),
            Some(Group::Name(NameGroup::Entry)) => self.entry_by_name(alloc, len, name, out),
            _ => Ok(Err(Code::C702)),
        }
    }

    // The first bytes of a value.
    fn value_by_name(
        &self,
        alloc: Global,
        len: u32,
        name: &[u8],
        out: &mut Octets,
    ) -> Result<Result<(), Code>, NoMemory>
        ensures answer { IfOk result (λ answer. (w : World) (c : client.Client) (p : PlantPort) → HoldsPort w p self.now
            → AnswersAct w (read_write_group (setup_of w) c p (Some ValueByName) len name.now) answer out.old out.new) }
        ensures no_memory { OnErr result (out.new ≡ out.old) }
    {
        match self.place(name) {
            Ok(place) => self.read_place(alloc, place, len, out),
            Err(code) => Ok(Err(code)),
        }
    }

    // The byte group, the offset and the length of what a name leads to.
    fn info_by_name(
        &self,
        alloc: Global,
        len: u32,
        name: &[u8],
        out: &mut Octets,
    ) -> Result<Result<(), Code>, NoMemory>
        ensures answer { IfOk result (λ answer. (w : World) (c : client.Client) (p : PlantPort) → HoldsPort w p self.now
            → AnswersAct w (read_write_group (setup_of w) c p (Some InfoByName) len name.now) answer out.old out.new) }
        ensures no_memory { OnErr result (out.new ≡ out.old) }
    {
        if len < 12 {
            return Ok(Err(Code::C705));
        }
        match self.find(name) {
            Some(found) => {
                put_info(alloc, found.place, out)?;
                Ok(Ok(()))
            }
            None => Ok(Err(Code::C710)),
        }
    }
}

// The 12 bytes of an info.
fn put_info(alloc: Global, place: Place, out: &mut Octets) -> Result<(), NoMemory>
    ensures ok { OnOk result (out.new ≡ out.old ++ (to_le_bytes w32 (byte_number (area_of place.area))
        ++ to_le_bytes w32 place.at ++ to_le_bytes w32 place.len)) }
    ensures no_memory { OnErr result (out.new ≡ out.old) }
{
    let before = out.len();
    let put = append_info(alloc, place, out);
    out.cut_back(before, put)
}

// After want of memory a part of the info may stand there.
fn append_info(alloc: Global, place: Place, out: &mut Octets) -> Result<(), NoMemory>
    ensures ok { OnOk result (out.new ≡ out.old ++ (to_le_bytes w32 (byte_number (area_of place.area))
        ++ to_le_bytes w32 place.at ++ to_le_bytes w32 place.len)) }
    ensures no_memory { OnErr result (Extends out.old out.new) }
{
    put32(alloc, out, byte_group(place.area))?;
    put32(alloc, out, place.at)?;
    put32(alloc, out, place.len)?;
    Ok(())
}
