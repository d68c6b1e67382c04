//! The extended info by name: the symbol entry of what a name leads to.

ghost use Rattle.std.specs.Prelude.{◌≡◌, ◌<◌, length, map, slice_get, IfOk, OnErr, Some};
ghost use Rattle.spec_plant.specs.AcceptedTypes.{AreTypes, IsSized};
ghost use Rattle.spec_plant.specs.Description as plant;
ghost use Rattle.spec_plant.specs.Finding.{found_of_steps};
ghost use Rattle.spec_plant.specs.World.{PlantPort, plant_symbol};
ghost use Rattle.spec_formats.specs.Groups.{ExtendedInfoByName};
ghost use Rattle.spec_formats.specs.SymbolEntry.{entry_bytes};
ghost use Rattle.spec_machine.specs.ByName.{read_write_group};
ghost use Rattle.spec_machine.specs.Client as client;
ghost use Rattle.spec_machine.specs.Reads.{fixed_reply};
ghost use Rattle.spec_machine.specs.World.{World, setup_of};
ghost use Rattle.symbol_info.specs.Entry.{entry_meant, HasShortTexts};
ghost use Rattle.symbol_table.specs.FoundPlaces.{Finds};
ghost use Rattle.symbol_table.specs.Tables.{TableSymbol, IsTableOf};
ghost use Rattle.type_layout.specs.NamedTypes.{types_of};
ghost use Rattle.type_layout.specs.Shapes.{shape_of_ref};
ghost use Rattle.port_device.specs.Answers.{AnswersAct, path_entry_act};
ghost use Rattle.port_device.specs.Holds.{HoldsPort};
ghost use Rattle.port_device.specs.Manners.{manner_of};
ghost use Rattle.port_device.specs.Rows.{entry_at};

use crate::Manner;
use crate::entries::flags_of;
use crate::naming::{find_in, without_nul};
use crate::port::Port;
use crate::type_ids::type_id;
use ads_base::{NoMemory, Octets};
use index_groups::byte_group;
use name_paths::Path;
use return_codes::Code;
use std::alloc::Global;
use std::marker::Brand;
use std::sync::ledger::Blank;
use symbol_info::{Entry, put_entry};
use symbol_table::{Found, Place, Table};
use type_layout::{TypeRef, Types, type_text};

impl Port {
    /// Appends the entry of what a name leads to. 0x710 where it leads to nothing, then 0x705 where the entry has more bytes
    /// than were asked for.
    pub(crate) fn entry_by_name(
        &self,
        alloc: Global,
        len: u32,
        name: &[u8],
        out: &mut Octets,
    ) -> Result<Result<(), Code>, NoMemory>
        ensures answer { IfOk result (λ answer. (w : World) (c : client.Client) (p : PlantPort) → HoldsPort w p self.now
            → AnswersAct w (read_write_group (setup_of w) c p (Some ExtendedInfoByName) len name.now) answer out.old out.new) }
        ensures no_memory { OnErr result (out.new ≡ out.old) }
    {
        match Path::read(without_nul(name)) {
            Some(path) => self.entry_by_path(alloc, len, &path, out),
            None => Ok(Err(Code::C710)),
        }
    }

    fn entry_by_path(
        &self,
        alloc: Global,
        len: u32,
        path: &Path<'_>,
        out: &mut Octets,
    ) -> Result<Result<(), Code>, NoMemory>
        ensures answer { IfOk result (λ answer. (w : World) (p : PlantPort) → HoldsPort w p self.now
            → AnswersAct w (path_entry_act w.profile.manner p path.now len) answer out.old out.new) }
        ensures no_memory { OnErr result (out.new ≡ out.old) }
    {
        match find_in::<Brand>(&self.table, &self.types, path, Blank::new(1)) {
            Some(found) => self.entry_of_found(alloc, len, path, &found, out),
            None => Ok(Err(Code::C710)),
        }
    }

    // The entry of what was found for a path.
    fn entry_of_found(
        &self,
        alloc: Global,
        len: u32,
        path: &Path<'_>,
        found: &Found<'_>,
        out: &mut Octets,
    ) -> Result<Result<(), Code>, NoMemory>
        requires { (port : plant.Port) → IsTableOf self.now.types port self.now.table
            → Finds self.now.types (map (plant_symbol self.now.types) port.symbols)
            (found_of_steps (map (plant_symbol self.now.types) port.symbols) path.now) (Some found.now) }
        ensures answer { IfOk result (λ answer. (w : World) (p : PlantPort) → HoldsPort w p self.now
            → AnswersAct w (path_entry_act w.profile.manner p path.now len) answer out.old out.new) }
        ensures no_memory { OnErr result (out.new ≡ out.old) }
    {
        let mut name = Octets::new(alloc);
        self.table
            .put_name(alloc, &self.types, path, found, &mut name)?;
        let mut kind = Octets::new(alloc);
        type_text(alloc, &self.types, found.kind, &mut kind)?;
        let entry = entry_at(
            self.manner,
            &self.table,
            &self.types,
            found.place,
            found.kind,
            name.as_slice(),
            kind.as_slice(),
            found.comment,
        );
        put_whole(alloc, len, &entry, out)
    }
}

// What an entry tells of a part at a place, with the type of the part and the three texts.
fn entry_at<'a>(
    manner: Manner,
    table: &Table,
    types: &Types,
    place: Place,
    t: TypeRef<'_>,
    name: &'a [u8],
    kind: &'a [u8],
    comment: &'a [u8],
) -> Entry<'a>
    requires types { AreTypes (types_of types.now) }
    requires sized { IsSized (types_of types.now) (shape_of_ref t) }
    requires there { place.symbol < length table.now.symbols }
    ensures { (s : TableSymbol) → slice_get table.now.symbols place.symbol ≡ Some s
        → entry_meant result ≡ entry_at (manner_of manner) (types_of types.now) s place (shape_of_ref t.entry) name.now kind.now comment.now }
{
    let row = &table.symbols()[place.symbol as usize];
    Entry {
        group: byte_group(place.area),
        offset: place.at,
        size: place.len,
        type_id: type_id(manner, types, t),
        flags: flags_of(row.persistent, row.read_only),
        name,
        kind,
        comment,
    }
}

// An entry, where it has no more bytes than were asked for.
fn put_whole(
    alloc: Global,
    len: u32,
    entry: &Entry<'_>,
    out: &mut Octets,
) -> Result<Result<(), Code>, NoMemory>
    requires { HasShortTexts entry.now }
    ensures answer { IfOk result (λ answer. (w : World)
        → AnswersAct w (fixed_reply len (entry_bytes (entry_meant entry.now))) answer out.old out.new) }
    ensures no_memory { OnErr result (out.new ≡ out.old) }
{
    let size = 33 + entry.name.len() + entry.kind.len() + entry.comment.len();
    if size > len as usize {
        return Ok(Err(Code::C705));
    }
    put_entry(alloc, entry, out)?;
    Ok(Ok(()))
}
