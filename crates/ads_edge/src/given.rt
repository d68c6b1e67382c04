//! Listening sockets that the process was given by who started it, as systemd gives them.

use libc::net as c;
use mio::net::TcpListener;
use os::FromRawFd;
use std::rt::Env;
use std::{io, net, str};

/// The descriptor of the first one.
const FIRST: i32 = 3;

/// How many listening sockets this process was given, from descriptor 3 on: the number of LISTEN_FDS, where LISTEN_PID is the
/// number of this process; else none.
pub fn given_doors<R: Env>(rt: &R) -> u16 {
    if number_in(rt, "LISTEN_PID") != Some(libc::getpid().unsigned_abs()) {
        return 0;
    }
    match number_in(rt, "LISTEN_FDS") {
        Some(count) => u16::try_from(count).unwrap_or(0),
        None => 0,
    }
}

// The number that a variable of the environment holds.
fn number_in<R: Env>(rt: &R, name: &str) -> Option<u32> {
    let mut room = [0u8; 16];
    match rt.var(name, &mut room) {
        Ok(n) => str::from_utf8(&room[..n]).ok()?.parse::<u32>().ok(),
        Err(_) => None,
    }
}

/// Takes over the n-th socket that was given. What is there and is no listening socket of TCP is left, and told.
pub(crate) fn given_door(n: u16) -> io::Result<TcpListener> {
    let fd = FIRST + n as i32;
    // Nothing is taken over that does not listen: it might be open for something else.
    if c::listen(fd, i32::MAX) < 0 {
        return Err(io::Error::from_raw_os_error(os::errno()));
    }
    let listener = unsafe { net::TcpListener::from_raw_fd(fd) };
    listener.local_addr()?;
    listener.set_nonblocking(true)?;
    Ok(TcpListener::from_std(listener))
}
