//! systemd, which is told the state of the daemon.

use crate::notify_address::{NotifyAddress, notify_address};
use daemon_outside::Beacon;
use libc::net as c;
use std::io;
use std::rt::Env;

/// MSG_DONTWAIT and MSG_NOSIGNAL.
const NOW: i32 = 0x4040;

/// The socket that NOTIFY_SOCKET names, where the process has one. A datagram that it does not take at once is lost.
#[derive(Drop)]
pub struct SystemdBeacon {
    fd: i32,
    address: Option<NotifyAddress>,
}

impl SystemdBeacon {
    /// The beacon of this process.
    pub fn new<R: Env>(rt: &R) -> SystemdBeacon {
        let mut name = [0u8; 128];
        let address = match rt.var("NOTIFY_SOCKET", &mut name) {
            Ok(n) => notify_address(&name[..n]),
            Err(_) => None,
        };
        let fd = if address.is_some() { datagrams() } else { -1 };
        SystemdBeacon { fd, address }
    }
}

// A unix socket for datagrams, closed in programs that the process starts; negative where there is none.
fn datagrams() -> i32 {
    unsafe { c::socket(1, 0o2_000_002, 0) }
}

impl Beacon for SystemdBeacon {
    // What systemd does not take is not told: it looks after the daemon by itself.
    fn tell(&mut self, state: &[u8]) -> io::Result<()> {
        if let Some(address) = &self.address {
            if self.fd >= 0 {
                let _ = unsafe { c::sendto(self.fd, state, NOW, &address.bytes, address.len) };
            }
        }
        Ok(())
    }
}
