//! A symbol entry.

/// What a symbol entry says of a symbol, with the texts that it borrows.
///
/// | field | bytes |
/// |---|---|
/// | entry length | 4 |
/// | index group, index offset, size | 4, 4, 4 |
/// | type id, flags | 4, 4 |
/// | name length, type length, comment length | 2, 2, 2 |
/// | name, type, comment | each followed by a NUL that its length does not count |
///
/// Every number is little-endian. Beckhoff Information System, "AdsSymbolEntry".
#[derive(Clone, Copy, Debug, PartialEq, Eq)]
pub struct Entry<'a> {
    pub group: u32,
    pub offset: u32,
    pub size: u32,
    pub type_id: u32,
    pub flags: u32,
    pub name: &'a [u8],
    pub kind: &'a [u8],
    pub comment: &'a [u8],
}
