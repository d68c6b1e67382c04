//! An entry of a body.

/// A stored value: the port and the name of its symbol, the form of its type, and its bytes.
///
/// | field | bytes |
/// |---|---|
/// | port, length of the name | 2, 2 |
/// | name | as its length says |
/// | length of the form | 8 |
/// | form | as its length says |
/// | number of bytes | 4 |
/// | bytes | as their number says |
#[derive(Clone, Copy, Debug)]
pub struct StoredEntry<'a> {
    pub port: u16,
    pub name: &'a [u8],
    pub form: &'a [u8],
    pub bytes: &'a [u8],
}
