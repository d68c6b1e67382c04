//! Standard error, without a wait.

ghost use Rattle.std.specs.Prelude.{◌≤◌, ◌<◌, length};

use daemon_outside::LogOutlet;
use libc::net as c;
use libc::types::pollfd;

/// MSG_DONTWAIT and MSG_NOSIGNAL.
const NOW: i32 = 0x4040;

/// Standard error: a pipe, a socket, a terminal or a file. It takes what there is room for now; a file or a terminal may
/// wait for its device all the same.
#[derive(Drop)]
pub struct StderrOutlet;

impl LogOutlet for StderrOutlet {
    ghost use Rattle.std.specs.Prelude.{None};

    ghost held = { λ _. None };

    fn take(&mut self, bytes: &[u8]) -> u32 {
        if !has_room() {
            return 0;
        }
        let sent = unsafe { c::send(libc::STDERR_FILENO, bytes, NOW) };
        if sent >= 0 {
            return sent as u32;
        }
        if os::errno() != libc::ENOTSOCK {
            return 0;
        }
        let written = libc::write(libc::STDERR_FILENO, bytes);
        if written >= 0 { written as u32 } else { 0 }
    }
}

// Whether standard error takes some bytes now. A pipe does so where there is room for 4,096.
fn has_room() -> bool {
    let mut fds = [pollfd {
        fd: libc::STDERR_FILENO,
        events: c::POLLOUT,
        revents: 0,
    }];
    c::poll(&mut fds, 0) == 1 && fds[0].revents == c::POLLOUT
}
