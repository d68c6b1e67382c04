//! The bytes that a Read gives, lent by the port.

ghost use Rattle.std.specs.Prelude.{◌≡◌, length, IfSome};
ghost use Rattle.spec_formats.specs.Codes.{no_error};
ghost use Rattle.spec_formats.specs.Request.{Read};
ghost use Rattle.sym_handles.specs.Kept.{Kept};
ghost use Rattle.session.specs.Asking.{Asking, outcome_asked};
ghost use Rattle.session.specs.Asks.{Asks};

use index_groups::{PROCESS_BYTES, Reach, reach};
use port_device::Port;

/// The bytes of data that a Read gives, lent. None for any other group, or where the range is refused.
/// Beckhoff Information System, "ADS Read".
#[inline(always)]
pub(crate) fn data_lent(port: &Port, group: u32, offset: u32, len: u32) -> Option<&[u8]>
    ensures gives { IfSome result (λ bytes. (a : Asking) (kept : Kept) → Asks a port.now kept
        → outcome_asked a (Read group offset len) ≡ record { code = no_error; bytes = bytes.now }) }
    ensures len { IfSome result (λ bytes. length bytes.now ≡ len) }
{
    if group != PROCESS_BYTES {
        return None;
    }
    match reach(port.sizes(), PROCESS_BYTES, offset, len) {
        Ok(Reach::Bytes { area, at, len }) => Some(port.lent(area, at, len)),
        _ => None,
    }
}
