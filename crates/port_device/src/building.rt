//! Ports of an accepted description, as they begin.

ghost use Rattle.std.specs.Prelude.{◌≡◌, length, All, IfOk};
ghost use Rattle.std.specs.Arc.{arc_value};
ghost use Rattle.type_layout.specs.Descriptions.{port_of, ports_of};
ghost use Rattle.type_layout.specs.NamedTypes.{types_of};
ghost use Rattle.type_layout.specs.declared.port.PortDesc.{PortDesc};
ghost use Rattle.port_device.specs.Uploads.{types_upload};
ghost use Rattle.port_device.specs.Manners.{manner_of};
ghost use Rattle.port_device.specs.FirstPorts.{IsOfAccepted, IsFirstPort, AreFirstPorts};

use crate::bound::bound_symbols;
use crate::counting::symbols_size;
use crate::first_image::first_image;
use crate::marks::marks_of;
use crate::uploads::UploadSizes;
use crate::writing::RUN;
use crate::{Manner, Port};
use ads_base::NoMemory;
use std::alloc::Global;
use std::sync::Arc;
use symbol_table::Table;
use type_layout::{PortDesc, Types};

/// The ports of an accepted description with these types, whose upload has `types_len` bytes.
pub(crate) fn first_ports(
    alloc: Global,
    types: &Arc<Types, Global>,
    types_len: u32,
    ports: &[PortDesc],
    version: u8,
    manner: Manner,
) -> Result<Vec<Port>, NoMemory>
    requires each { All (λ (p : PortDesc). IsOfAccepted (types_of (arc_value types.now)) (port_of p)) ports.now }
    requires types_len { types_len ≡ length (types_upload (types_of (arc_value types.now))) }
    ensures { IfOk result (λ built. AreFirstPorts (types_of (arc_value types.now)) version (manner_of manner) (ports_of ports.now) built.items) }
{
    let mut built = Vec::new(alloc);
    for d in ports {
        let port = first_port(alloc, types, types_len, d, version, manner)?;
        built.push(port)?;
    }
    Ok(built)
}

/// One of them.
pub(crate) fn first_port(
    alloc: Global,
    types: &Arc<Types, Global>,
    types_len: u32,
    d: &PortDesc,
    version: u8,
    manner: Manner,
) -> Result<Port, NoMemory>
    requires accepted { IsOfAccepted (types_of (arc_value types.now)) (port_of d.now) }
    requires types_len { types_len ≡ length (types_upload (types_of (arc_value types.now))) }
    ensures { IfOk result (IsFirstPort (types_of (arc_value types.now)) (port_of d.now) version (manner_of manner)) }
{
    let table = Table::build(alloc, d, types)?;
    let symbols = symbols_size(alloc, types, &table)?;
    let rows = table.symbols();
    let image = first_image(alloc, &d.sizes, rows)?;
    let bound = bound_symbols(alloc, rows)?;
    let marks = marks_of(alloc, &d.sizes, rows)?;
    let shared = Arc::try_clone(types)?;
    Ok(Port {
        types: shared,
        ams_port: d.port,
        facts: d.facts,
        sizes: d.sizes,
        table,
        version,
        manner,
        ads: RUN,
        device: 0,
        image,
        uploads: UploadSizes {
            symbols,
            types: types_len,
        },
        bound,
        marks,
    })
}
