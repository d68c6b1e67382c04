//! Ports whose symbols begin with stored bytes.

ghost use Rattle.std.specs.Prelude.{◌≡◌, map, OnOk};
ghost use Rattle.spec_plant.specs.AcceptedTypes.{AreTypes};
ghost use Rattle.spec_persistent.specs.Stored.{port_with_stored};
ghost use Rattle.type_layout.specs.Descriptions.{port_of, symbols_of};
ghost use Rattle.type_layout.specs.NamedTypes.{types_of};
ghost use Rattle.persist_store.specs.Entries.{entry_meant};
ghost use Rattle.stored_values.specs.StoredBodies.{AreSized, AreSizedPorts};

use crate::symbols::store_symbols;
use ads_base::NoMemory;
use persist_store::StoredEntry;
use std::alloc::Global;
use type_layout::{PortDesc, Types};

/// The persistent symbols of all ports begin with what is stored of them.
pub(crate) fn store_ports(
    alloc: Global,
    entries: &[StoredEntry<'_>],
    types: &Types,
    ports: &mut [PortDesc],
) -> Result<(), NoMemory>
    requires types { AreTypes (types_of types.now) }
    requires sized { AreSizedPorts (types_of types.now) (map port_of ports.old) }
    ensures { OnOk result (map port_of ports.new
        ≡ map (port_with_stored (map entry_meant entries.now) (types_of types.now)) (map port_of ports.old)) }
{
    for port in ports.iter_mut() {
        store_port(alloc, entries, types, port)?;
    }
    Ok(())
}

fn store_port(
    alloc: Global,
    entries: &[StoredEntry<'_>],
    types: &Types,
    port: &mut PortDesc,
) -> Result<(), NoMemory>
    requires types { AreTypes (types_of types.now) }
    requires sized { AreSized (types_of types.now) (symbols_of port.old.symbols) }
    ensures { OnOk result (port_of port.new
        ≡ port_with_stored (map entry_meant entries.now) (types_of types.now) (port_of port.old)) }
{
    store_symbols(
        alloc,
        entries,
        types,
        port.port,
        port.symbols.as_mut_slice(),
    )
}
