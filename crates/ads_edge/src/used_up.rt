//! Descriptors that are used up, and one that is kept for such a time.

ghost use Rattle.std.specs.Prelude.{◌≡◌};
ghost use Rattle.std.specs.IoError.{raw_os_error};
ghost use Rattle.ads_edge.specs.UsedUp.{are_used_up};

use os::FromRawFd;
use std::io;
use std::os::fd::OwnedFd;

/// The system's numbers for want of a descriptor: of the process, and of all.
const EMFILE: i32 = 24;

const ENFILE: i32 = 23;

/// Whether the system refused a call since no descriptor is left.
pub(crate) fn are_used_up(error: &io::Error) -> bool
    ensures { result ≡ are_used_up (raw_os_error error.now) }
{
    match error.raw_os_error() {
        Some(number) => number == EMFILE || number == ENFILE,
        None => false,
    }
}

/// A descriptor of the null device, which is kept to be given up where no other is left; None where there is none even now.
pub(crate) fn kept_descriptor() -> Option<OwnedFd> {
    let fd = os::open_read(b"/dev/null");
    if fd < 0 {
        return None;
    }
    Some(unsafe { OwnedFd::from_raw_fd(fd) })
}
