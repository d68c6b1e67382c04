//! A file in memory.

use ads_base::{ListOf, Octets};

/// A name and the bytes under it.
#[derive(Debug, Drop)]
pub struct NamedFile {
    pub name: Octets,
    pub bytes: Octets,
}

/// Files; the first of two with one name counts.
pub type NamedFiles = ListOf<NamedFile>;
