//! Standard input, output and error.

/// Opens the null device, for reading alone, at each of the descriptors 0 to 2 that is closed, so that no file and no socket
/// that is opened later gets the number: then what is printed fails, and nothing is there to be read. False where that can't
/// be done. It is to be called before anything is opened.
pub fn hold_standard_descriptors() -> bool {
    hold(libc::STDIN_FILENO) && hold(libc::STDOUT_FILENO) && hold(libc::STDERR_FILENO)
}

// The descriptor is open, or is opened now; those below it are open.
fn hold(fd: i32) -> bool {
    is_open(fd) || opens_as(fd, b"/dev/null") || opens_as(fd, b"/")
}

// A call that no closed descriptor can answer otherwise.
fn is_open(fd: i32) -> bool {
    libc::isatty(fd) == 1 || os::errno() != libc::EBADF
}

// The system gives the least descriptor that is free.
fn opens_as(fd: i32, path: &[u8]) -> bool {
    os::open_read(path) == fd
}
