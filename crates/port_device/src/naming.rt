//! What a name leads to.

ghost use Rattle.std.specs.Prelude.{◌≡◌, ◌<◌, map, IfOk, IfSome};
ghost use Rattle.spec_plant.specs.Description as plant;
ghost use Rattle.spec_plant.specs.Finding.{found_of, found_of_steps, without_nul};
ghost use Rattle.spec_plant.specs.World.{PlantPort, plant_symbol};
ghost use Rattle.spec_machine.specs.World.{World};
ghost use Rattle.type_layout.specs.NamedTypes.{types_of};
ghost use Rattle.symbol_table.specs.FoundPlaces.{Finds};
ghost use Rattle.symbol_table.specs.Tables.{IsTableOf, IsTableWith};
ghost use Rattle.port_device.specs.Answers.{FindsPlace, IsPlaceOf};
ghost use Rattle.port_device.specs.Holds.{HoldsPort};

use crate::port::Port;
use ads_base::Steps;
use name_paths::Path;
use return_codes::Code;
use std::marker::Brand;
use std::sync::ledger::{Blank, Ledger};
use symbol_table::{Found, Place, Table};
use type_layout::Types;

impl Port {
    /// The bytes of what a name leads to: a symbol, or a part of one, ASCII case aside. The name may end in one NUL. 0x710
    /// where it is no name, or leads to nothing.
    pub fn place(&self, name: &[u8]) -> Result<Place, Code>
        ensures found { (w : World) (p : PlantPort) → HoldsPort w p self.now
            → FindsPlace w p (found_of p.symbols name.now) result }
        ensures placed { IfOk result (IsPlaceOf self.now.table) }
    {
        match self.find(name) {
            Some(found) => Ok(found.place),
            None => Err(Code::C710),
        }
    }

    /// What a name leads to.
    pub(crate) fn find<'a>(&'a self, name: &[u8]) -> Option<Found<'a>>
        ensures found { (port : plant.Port) → IsTableOf self.now.types port self.now.table
            → Finds self.now.types (map (plant_symbol self.now.types) port.symbols)
            (found_of (map (plant_symbol self.now.types) port.symbols) name.now) result }
        ensures placed { IfSome result (λ found. IsPlaceOf self.now.table found.place) }
    {
        match Path::read(without_nul(name)) {
            Some(path) => find_in::<Brand>(&self.table, &self.types, &path, Blank::new(1)),
            None => None,
        }
    }
}

// What a path leads to; nobody counts the steps.
pub(crate) fn find_in<'a, L: Ledger>(
    table: &'a Table,
    types: &'a Types,
    path: &Path<'_>,
    blank: Blank,
) -> Option<Found<'a>>
    requires name { blank.name ≡ L.name }
    requires parts { blank.parts ≡ L.parts }
    requires some { 0 < blank.parts }
    requires table { IsTableWith (types_of types.now) table.now }
    ensures { (port : plant.Port) → IsTableOf (types_of types.now) port table.now
        → Finds (types_of types.now) (map (plant_symbol (types_of types.now)) port.symbols)
        (found_of_steps (map (plant_symbol (types_of types.now)) port.symbols) path.now) result }
{
    let mut steps: Steps<L> = Steps::open(blank);
    table.find(types, path, &mut steps)
}

// A name without the NUL at its end.
pub(crate) fn without_nul(name: &[u8]) -> &[u8]
    ensures { result.now ≡ without_nul name.now }
{
    if name.is_empty() {
        return name;
    }
    let last = name.len() - 1;
    if name[last] != 0 {
        return name;
    }
    &name[..last]
}
