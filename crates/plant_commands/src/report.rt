//! What `check` prints of a description.

ghost use Rattle.std.specs.Prelude.{◌≡◌, ◌≤◌, ◌++◌, length, All, IfOk, OnOk};
ghost use Rattle.type_layout.specs.NamedTypes.{types_of};
ghost use Rattle.type_layout.specs.Descriptions.{port_of, ports_of, description_of};
ghost use Rattle.run_tasks.specs.Report.{before_nul, port_line, symbol_count, counts_line, report_of};
ghost use Rattle.plant_commands.specs.Told.{CanBeTold};

use ads_base::{NoMemory, Octets};
use replay_script::put_counted;
use std::alloc::Global;
use type_layout::{Description, PortDesc, Types, upload_size};

/// The lines that tell of a description.
pub fn report(alloc: Global, d: &Description) -> Result<Octets, NoMemory>
    requires told { All (CanBeTold (types_of d.now.types)) d.now.ports }
    requires few { length d.now.ports ≤ 16 }
    ensures { IfOk result (λ text. text ≡ report_of (description_of d.now)) }
{
    let mut out = Octets::new(alloc);
    for port in d.ports.as_slice() {
        put_port_line(alloc, &d.types, port, &mut out)?;
    }
    put_counts_line(alloc, d, &mut out)?;
    Ok(out)
}

// `port 851 name Plc30 App image 192 symbols 6 upload 300`
fn put_port_line(
    alloc: Global,
    types: &Types,
    port: &PortDesc,
    out: &mut Octets,
) -> Result<(), NoMemory>
    requires { CanBeTold (types_of types.now) port.now }
    ensures { OnOk result (out.new ≡ out.old ++ port_line (types_of types.now) (port_of port.now)) }
{
    let sizes = port.sizes;
    let image = sizes.inputs + sizes.outputs + sizes.memory + sizes.process;
    let symbols = port.symbols.len() as u64;
    let upload = upload_size(alloc, types, port.symbols.as_slice())?;
    put_counted(alloc, out, b"port ", u64::from(port.port))?;
    out.put(alloc, b" name ")?;
    out.put(alloc, before_nul(&port.facts.name))?;
    put_counted(alloc, out, b" image ", u64::from(image))?;
    put_counted(alloc, out, b" symbols ", symbols)?;
    put_counted(alloc, out, b" upload ", u64::from(upload))?;
    out.push(alloc, b'\n')
}

// The bytes before the first NUL.
fn before_nul(bytes: &[u8]) -> &[u8]
    ensures { result.now ≡ before_nul bytes.now }
{
    for i in 0..bytes.len() {
        if bytes[i] == 0 {
            return &bytes[..i];
        }
    }
    bytes
}

// `ok ports 1 symbols 6 types 1`
fn put_counts_line(alloc: Global, d: &Description, out: &mut Octets) -> Result<(), NoMemory>
    requires told { All (CanBeTold (types_of d.now.types)) d.now.ports }
    requires few { length d.now.ports ≤ 16 }
    ensures { OnOk result (out.new ≡ out.old ++ counts_line (description_of d.now)) }
{
    put_counted(alloc, out, b"ok ports ", d.ports.len() as u64)?;
    put_counted(alloc, out, b" symbols ", symbol_count(d) as u64)?;
    put_counted(alloc, out, b" types ", d.types.len() as u64)?;
    out.push(alloc, b'\n')
}

// The symbols of all ports.
fn symbol_count(d: &Description) -> usize
    requires told { All (CanBeTold (types_of d.now.types)) d.now.ports }
    requires few { length d.now.ports ≤ 16 }
    ensures { result ≡ symbol_count (ports_of d.now.ports) }
{
    let mut count = 0;
    for port in d.ports.as_slice() {
        count += port.symbols.len();
    }
    count
}
