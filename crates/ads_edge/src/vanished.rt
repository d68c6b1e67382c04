//! What the system does about peers that vanish without a word.

ghost use Rattle.libc.specs.Net.{SockOption};

use libc::net as c;
use mio::net::TcpStream;
use std::os::fd::AsRawFd;

/// How long what was sent may stand without an acknowledgement before the system fails the connection, in ms: five minutes.
const UNACKNOWLEDGED_MILLIS: i32 = 300_000;

/// After how many seconds of silence the system asks whether the peer is there, how many seconds lie between two askings,
/// and after how many without an answer it fails the connection: five minutes together.
const ASKS_AFTER_SECS: i32 = 240;

const ASKS_EACH_SECS: i32 = 15;

const ASKS: i32 = 4;

/// Has the system fail the connection where its peer has vanished for five minutes. Where it can't, nothing changes.
pub(crate) fn watch_over(stream: &TcpStream) {
    let fd = stream.as_raw_fd();
    set(
        fd,
        c::IPPROTO_TCP,
        c::TCP_USER_TIMEOUT,
        UNACKNOWLEDGED_MILLIS,
    );
    set(fd, c::IPPROTO_TCP, c::TCP_KEEPIDLE, ASKS_AFTER_SECS);
    set(fd, c::IPPROTO_TCP, c::TCP_KEEPINTVL, ASKS_EACH_SECS);
    set(fd, c::IPPROTO_TCP, c::TCP_KEEPCNT, ASKS);
    set(fd, c::SOL_SOCKET, c::SO_KEEPALIVE, 1);
}

// Sets a socket's option, whose value is a number.
fn set(fd: i32, level: i32, name: i32, value: i32)
    requires { SockOption level name }
{
    let mut bytes = [0u8; 16];
    bytes[..4].copy_from_slice(&value.to_ne_bytes());
    let _ = unsafe { c::setsockopt(fd, level, name, &bytes, 4) };
}
