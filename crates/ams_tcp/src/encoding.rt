//! The frame of an AMS packet.

ghost use Rattle.std.specs.Prelude.{◌≡◌, ◌++◌, OnOk, OnErr};
ghost use Rattle.spec_frames.specs.Frame.{IsAmsPacket, frame_bytes};

use ads_base::{NoMemory, Octets};
use std::alloc::Global;

/// Appends the frame of an AMS packet.
///
/// | field | bytes |
/// |---|---|
/// | reserved, zero | 2 |
/// | length of the AMS packet, little-endian | 4 |
/// | AMS packet | 32 to 2,097,152 |
///
/// Beckhoff Information System, "AMS/TCP Packet".
pub fn put_frame(alloc: Global, ams: &[u8], out: &mut Octets) -> Result<(), NoMemory>
    requires { IsAmsPacket ams.now }
    ensures ok { OnOk result (out.new ≡ out.old ++ frame_bytes ams.now) }
    ensures no_memory { OnErr result (out.new ≡ out.old) }
{
    let len = (ams.len() as u32).to_le_bytes();
    let before = out.len();
    out.put(alloc, &[0, 0, len[0], len[1], len[2], len[3]])?;
    let put = out.put(alloc, ams);
    out.cut_back(before, put)
}
