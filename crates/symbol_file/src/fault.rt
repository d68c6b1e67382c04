//! Why a text is no description.

/// Why a text is no description.
///
/// The rules are numbered from 1 to 15; `docs/FORMATS.md` lists them.
#[derive(Clone, Copy, Debug, PartialEq, Eq)]
pub enum DescFault {
    /// It is no TOML document.
    Syntax,
    /// The least broken rule, and in it the least item.
    Rule { number: u8, item: u32 },
}
