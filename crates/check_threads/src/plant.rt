//! A plant, and sessions that watch one of its symbols.

ghost use Rattle.std.specs.Prelude.{IfOk};
ghost use Rattle.type_layout.specs.Descriptions.{description_of};
ghost use Rattle.port_device.specs.Holds.{WasAccepted};
ghost use Rattle.check_threads.specs.Watching.{IsServedByPortsOf};

use ads_base::NoMemory;
use net_routes::Admission;
use port_device::Ports;
use server_core::Turned;
use session::{FrameList, Session};
use std::alloc::Global;
use std::test::Fail;
use symbol_file::read;
use type_layout::Description;

// The plant of the worked examples, as far as its ports go.
const TEXT: &str = "schema = 1
net = '5.1.2.3.1.1'
[[route]]
net = '192.168.0.9.1.1'
rights = 'control'
[[route]]
net = '192.168.0.10.1.1'
rights = 'read'
[[type]]
name = 'Axis'
member = [
  { name = 'active', type = 'BOOL' },
  { name = 'pos', type = 'DINT' },
  { name = 'label', type = 'STRING(5)' },
]
[[port]]
port = 851
name = 'Plc30 App'
major = 3
minor = 1
build = 1711
inputs = 16
outputs = 16
memory = 32
data = 128
[[port.symbol]]
name = 'Main.count'
type = 'DINT'
area = 'data'
offset = 0
initial = '2a000000'
[[port.symbol]]
name = 'Main.axis'
type = 'ARRAY [1..3] OF Axis'
area = 'data'
offset = 8
[[port.symbol]]
name = 'Main.limit'
type = 'INT'
area = 'data'
offset = 60
read_only = true
initial = 'e803'
[[port.symbol]]
name = 'Main.wave'
type = 'UINT'
area = 'data'
offset = 64
signal = 2
[[port.symbol]]
name = 'Main.title'
type = 'STRING(7)'
area = 'data'
offset = 72
persistent = true
initial = '4d69780000000000'
[[port.symbol]]
name = 'Flags.bits'
type = 'BYTE'
area = 'memory'
offset = 0
";

// An AddDeviceNotification from 192.168.0.9.1.1:32905, invoke id 1: 4 bytes of the data from offset 0 on, which are Main.count, on
// change, at each tick.
const ADDITION: [u8; 72] = [
    5, 1, 2, 3, 1, 1, 0x53, 3, 192, 168, 0, 9, 1, 1, 0x89, 0x80, 6, 0, 4, 0, 40, 0, 0, 0, 0, 0, 0,
    0, 1, 0, 0, 0, 0x40, 0x40, 0, 0, 0, 0, 0, 0, 4, 0, 0, 0, 4, 0, 0, 0, 0, 0, 0, 0, 0, 0, 0, 0, 0,
    0, 0, 0, 0, 0, 0, 0, 0, 0, 0, 0, 0, 0, 0, 0,
];

/// The plant.
pub fn described(alloc: Global) -> Result<Description, Fail>
    ensures { IfOk result (λ d. WasAccepted (description_of d)) }
{
    match read(alloc, TEXT.as_bytes(), 3)? {
        Ok(d) => Ok(d),
        Err(_) => Err(Fail::new("the plant is refused")),
    }
}

/// A session of a client that watches Main.count and was not told of it yet.
#[tactic(auto, using(port_device::proofs::BuiltLemmas::accepted_may_be_built))]
pub fn watching(alloc: Global, d: &Description) -> Result<Turned, NoMemory>
    requires { WasAccepted (description_of d.now) }
    ensures { IfOk result (λ turned. IsServedByPortsOf (description_of d.now) turned.session) }
{
    let mut ports = Ports::build(alloc, d)?;
    let admission = Admission::build(alloc, &d.routes, None)?;
    let mut session = Session::new(alloc)?;
    let _added = session.take(alloc, &mut ports, &admission, d.net, &ADDITION)?;
    Ok(Turned {
        session,
        skip: false,
        out: FrameList::new(alloc),
    })
}
