//! A type entry.

/// What an entry says of a type, with the bytes that it borrows.
///
/// | field | bytes |
/// |---|---|
/// | entry length | 4 |
/// | version, hash, type hash | 4, 4, 4 |
/// | size, offset | 4, 4 |
/// | type id, flags | 4, 4 |
/// | name length, type length, comment length | 2, 2, 2 |
/// | dimensions, sub items | 2, 2 |
/// | name, type, comment | each followed by a NUL that its length does not count |
/// | per dimension: lower bound, elements | 4, 4 |
/// | sub entries | each as an entry without sub items |
///
/// Every number is little-endian. Beckhoff Information System, "AdsDatatypeEntry".
#[derive(Clone, Copy, Debug, PartialEq, Eq)]
pub struct TypeEntry<'a> {
    pub size: u32,
    pub offset: u32,
    pub type_id: u32,
    pub flags: u32,
    pub name: &'a [u8],
    /// The text of the type.
    pub kind: &'a [u8],
    pub comment: &'a [u8],
    /// The dimensions, 8 bytes each: lower bound and elements.
    pub dims: &'a [u8],
    /// The number of sub entries.
    pub subs: u16,
    /// The sub entries, which `read_type` reads one after another.
    pub sub_bytes: &'a [u8],
}
