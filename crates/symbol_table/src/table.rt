//! The table of a port's symbols.

ghost use Rattle.std.specs.Prelude.{◌≡◌, ℕ, ◌+◌, ◌-◌, ◌*◌, ◌^◌, ◌<◌, ◌≤◌, List, length, map, slice_get, Some, IfOk, OnOk, OnErr, All};
ghost use Rattle.spec_plant.specs.Description.{Port, size_in};
ghost use Rattle.spec_plant.specs.Finding.{found_of_steps};
ghost use Rattle.spec_plant.specs.Listed.{NamedType};
ghost use Rattle.spec_plant.specs.Parts.{part_behind};
ghost use Rattle.spec_plant.specs.Trees.{tree_of};
ghost use Rattle.spec_plant.specs.World.{plant_symbol};
ghost use Rattle.type_layout.specs.Descriptions.{area_of, port_of};
ghost use Rattle.type_layout.specs.NamedTypes.{types_of};
ghost use Rattle.type_layout.specs.Spelled.{Extends};
ghost use Rattle.spec_plant.specs.PartTexts.{comment_behind};
ghost use Rattle.symbol_table.specs.FoundParts.{TellsPlace};
ghost use Rattle.symbol_table.specs.FoundPlaces.{Finds, PutsName};
ghost use Rattle.symbol_table.specs.PlaceOrders.{IsPlaceOrder};
ghost use Rattle.symbol_table.specs.Ranges.{AreInRange, AllStandIn};
ghost use Rattle.symbol_table.specs.Rows.{symbols_of_rows, declared_by_rows, IsSizedRow};
ghost use Rattle.symbol_table.specs.Tables.{TableSymbol, table_of, IsPlaced, IsTableOf, IsTableWith, number_called};
ghost use Rattle.symbol_table.specs.Tiles.{IsTileAt};

use crate::by_place::place_order;
use crate::name_order::NameOrder;
use crate::names::names_of;
use crate::parts::{Part, part_behind, steps_behind, steps_behind_name};
use crate::ranges::numbers_in;
use crate::row::{SymbolRow, rows_of};
use crate::spelled::append_steps;
use crate::tiling::tile_at;
use crate::{Found, Place, Tile};
use ads_base::{NoMemory, Octets, Steps};
use name_index::NameIndex;
use name_paths::{LaterSteps, Path};
use std::alloc::Global;
use std::marker::Model;
use std::sync::ledger::Ledger;
use type_layout::{Area, Extents, PortDesc, Sizes, Types};

/// The symbols of a port, found by their names, by paths and by their places. Contracts see the sizes of the areas and,
/// of each symbol in the order of the description, what is kept of it.
#[derive(Drop)]
pub struct Table {
    sizes: Sizes,
    extents: Extents,
    rows: Vec<SymbolRow>,
    names: NameIndex,
    by_name: NameOrder,
    by_place: Vec<u32>,
}

impl Model for Table {
    ghost use Rattle.symbol_table.specs.Tables.{SymbolTable};
    ghost use Rattle.symbol_table.specs.Rows.{symbols_of_rows};
    ghost use Rattle.symbol_table.specs.Sound.{IsSoundTable};
    ghost use Rattle.type_layout.specs.Descriptions.{sizes_of};

    ghost Value = { SymbolTable };

    ghost view = { λ t. record { sizes = sizes_of t.sizes; symbols = symbols_of_rows t.rows.items; extents = t.extents } };

    ghost invariant = { λ t. IsSoundTable (sizes_of t.sizes) (symbols_of_rows t.rows.items) t.names t.by_name t.by_place.items };
}

impl Table {
    /// The table of a port of an accepted description with these types.
    pub fn build(alloc: Global, port: &PortDesc, types: &Types) -> Result<Table, NoMemory>
        requires { IsPlaced (types_of types.now) (port_of port.now) }
        ensures { IfOk result (λ table. table ≡ table_of (types_of types.now) (port_of port.now)) }
    {
        let extents = Extents::build(alloc, types)?;
        let rows = rows_of(alloc, port.symbols.as_slice(), types, &extents)?;
        let names = names_of(alloc, rows.as_slice())?;
        let by_name = NameOrder::build(alloc, rows.as_slice())?;
        let by_place = place_order(alloc, rows.as_slice())?;
        Ok(Table {
            sizes: port.sizes,
            extents,
            rows,
            names,
            by_name,
            by_place,
        })
    }

    /// The symbol, or the part of one, that a path leads to, ASCII case aside. `types` is the list of types that the
    /// table was built with. The path is compared with a name, where there is one, and with at most as many names as the
    /// number of symbols has binary digits, and one more; each comparison is a step.
    pub fn find<'a, L: Ledger>(
        &'a self,
        types: &'a Types,
        path: &Path<'_>,
        steps: &mut Steps<L>,
    ) -> Option<Found<'a>>
        requires { IsTableWith (types_of types.now) self.now }
        ensures found { (port : Port) → IsTableOf (types_of types.now) port self.now
            → Finds (types_of types.now) (map (plant_symbol (types_of types.now)) port.symbols)
            (found_of_steps (map (plant_symbol (types_of types.now)) port.symbols) path.now) result }
        ensures steps_rise { steps.old ≤ steps.new }
        ensures some_step { 0 < length self.now.symbols → steps.old < steps.new }
        ensures few_steps { 2 ^ (steps.new - steps.old) ≤ 2 * (length self.now.symbols + 1) }
    {
        match self.by_name.search(path, steps) {
            None => None,
            Some((number, count)) => self.part(types, number, steps_behind(path, count)),
        }
    }

    // The part of a symbol that the steps behind its name lead to.
    fn part<'a>(&'a self, types: &'a Types, number: u32, steps: LaterSteps<'_>) -> Option<Found<'a>>
        requires types { IsTableWith (types_of types.now) self.now }
        requires there { number < length self.now.symbols }
        ensures { (s : TableSymbol) → slice_get self.now.symbols number ≡ Some s
            → TellsPlace (types_of types.now) s number
            (comment_behind s.comment (tree_of (types_of types.now) s.shape) steps.entry)
            (part_behind (record { first = 0; type = tree_of (types_of types.now) s.shape }) steps.entry) result }
    {
        let row = &self.rows[number as usize];
        let whole = Part {
            first: 0,
            kind: row.kind.as_ref(),
            comment: row.comment.as_slice(),
        };
        match part_behind(types, &self.extents, whole, &steps) {
            None => None,
            Some(part) => {
                let area_size = self.sizes.in_area(row.area);
                prove!(row.at <= area_size);
                Some(Found {
                    place: Place {
                        symbol: number,
                        area: row.area,
                        at: row.at + part.first,
                        len: self.extents.size(types, part.kind),
                    },
                    kind: part.kind,
                    comment: part.comment,
                })
            }
        }
    }

    /// Appends the declared name of what a path leads to, which `find` told: the symbol's name, the names of the members,
    /// and the indexes.
    pub fn put_name(
        &self,
        alloc: Global,
        types: &Types,
        path: &Path<'_>,
        found: &Found<'_>,
        out: &mut Octets,
    ) -> Result<(), NoMemory>
        requires types { IsTableWith (types_of types.now) self.now }
        requires there { found.now.place.symbol < length self.now.symbols }
        ensures ok { OnOk result
            (PutsName (types_of types.now) self.now path.now found.now.place.symbol out.old out.new) }
        ensures no_memory { OnErr result (out.new ≡ out.old) }
    {
        let before = out.len();
        let put = self.append_name(alloc, types, path, found.place.symbol, out);
        out.cut_back(before, put)
    }

    // After want of memory a part of the name may stand there.
    fn append_name(
        &self,
        alloc: Global,
        types: &Types,
        path: &Path<'_>,
        number: u32,
        out: &mut Octets,
    ) -> Result<(), NoMemory>
        requires types { IsTableWith (types_of types.now) self.now }
        requires there { number < length self.now.symbols }
        ensures ok { OnOk result (PutsName (types_of types.now) self.now path.now number out.old out.new) }
        ensures no_memory { OnErr result (Extends out.old out.new) }
    {
        let row = &self.rows[number as usize];
        let name = row.name.as_slice();
        out.put(alloc, name)?;
        let steps = steps_behind_name(path, name);
        append_steps(alloc, types, &self.extents, row.kind.as_ref(), &steps, out)?;
        Ok(())
    }

    /// What stands at a byte of an area: a symbol, or a gap between symbols.
    pub fn tile(&self, area: Area, at: u32) -> Tile
        requires { at < size_in self.now.sizes (area_of area) }
        ensures { IsTileAt self.now (area_of area) at result }
    {
        tile_at(
            self.rows.as_slice(),
            self.by_place.as_slice(),
            self.sizes,
            area,
            at,
        )
    }

    /// The numbers of the symbols to which one of `len` bytes of an area from `at` on belongs, in the order of their
    /// places. What lies between them belongs to no symbol. They are found by halving.
    pub fn symbols_in(&self, area: Area, at: u32, len: u32) -> &[u32]
        requires { at + len ≤ size_in self.now.sizes (area_of area) }
        ensures range { AreInRange self.now.symbols (area_of area) at len result.now }
        ensures plant { (types : List NamedType) (port : Port) → IsTableOf types port self.now
            → AllStandIn (map (plant_symbol types) port.symbols) (area_of area) at len result.now }
    {
        let size = self.sizes.in_area(area);
        numbers_in(
            self.rows.as_slice(),
            self.by_place.as_slice(),
            size,
            area,
            at,
            len,
        )
    }

    /// The symbols in the order of the description, which numbers them from 0.
    pub fn symbols(&self) -> &[SymbolRow]
        ensures rows { symbols_of_rows result.now ≡ self.now.symbols }
        ensures declared { (types : List NamedType) (port : Port) → IsTableOf types port self.now
            → declared_by_rows result.now ≡ port.symbols }
        ensures sized { (types : List NamedType) → IsTableWith types self.now → All (IsSizedRow types) result.now }
    {
        self.rows.as_slice()
    }

    /// The number of the symbol with this whole name, ASCII case aside.
    pub fn named(&self, alloc: Global, name: &[u8]) -> Result<Option<u32>, NoMemory>
        ensures { IfOk result (λ number. number ≡ number_called name.now self.now.symbols) }
    {
        Ok(self.names.find(name))
    }

    /// The numbers of the symbols in the order of their places: by area, and by offset in an area.
    pub fn by_place(&self) -> &[u32]
        ensures { IsPlaceOrder self.now.symbols result.now }
    {
        self.by_place.as_slice()
    }
}
