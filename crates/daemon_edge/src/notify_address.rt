//! The address of systemd's notification socket.

ghost use Rattle.std.specs.Prelude.{◌≤◌};

/// The greatest number of bytes of a socket's path.
const MOST: usize = 107;

/// The address of a unix socket, and how many of its bytes count.
#[derive(Drop)]
pub(crate) struct NotifyAddress {
    pub(crate) bytes: [u8; 128],
    pub(crate) len: u32,
    ghost within: { len ≤ 128 },
}

/// The address of a path, or of an abstract name, which is written with `@` in front; None for no text, and for one that is
/// too long.
///
/// | field | bytes |
/// |---|---|
/// | family, 1 | 2 |
/// | the path, and a zero; or a zero, and the abstract name | the rest |
pub(crate) fn notify_address(name: &[u8]) -> Option<NotifyAddress> {
    if name.is_empty() || MOST < name.len() {
        return None;
    }
    let mut bytes = [0u8; 128];
    bytes[0] = 1;
    bytes[2..2 + name.len()].copy_from_slice(name);
    let len = 2 + name.len() as u32;
    if name[0] == b'@' {
        bytes[2] = 0;
        return Some(NotifyAddress { bytes, len });
    }
    Some(NotifyAddress {
        bytes,
        len: len + 1,
    })
}
