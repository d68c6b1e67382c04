//! Whether files may be made in a folder.

/// The room of a path in C, with the zero behind it.
const ROOM: usize = libc::PATH_MAX;

/// Whether this user may make files in a folder, by the system's word.
pub(crate) fn may_write_in(folder: &str) -> bool {
    let bytes = folder.as_bytes();
    if bytes.len() >= ROOM || bytes.contains(&0) {
        return false;
    }
    let mut path = [0u8; ROOM];
    path[..bytes.len()].copy_from_slice(bytes);
    path[ROOM - 1] = 0;
    unsafe { libc::access(&path, libc::W_OK | libc::X_OK) == 0 }
}
