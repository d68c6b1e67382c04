//! A description as its document writes it. Everything borrows the document.

/// `[[route]]`
#[derive(Clone, Copy)]
pub struct WrittenRoute<'a> {
    pub net: &'a [u8],
    pub rights: &'a [u8],
}

/// `[[type.member]]`
#[derive(Clone, Copy)]
pub struct WrittenMember<'a> {
    pub name: &'a [u8],
    pub kind: &'a [u8],
    pub comment: &'a [u8],
}

/// `[[type.value]]`
#[derive(Clone, Copy)]
pub struct WrittenValue<'a> {
    pub name: &'a [u8],
    pub number: i64,
}

/// A structure under `[[type]]`.
#[derive(Drop)]
pub struct WrittenStructure<'a> {
    pub name: &'a [u8],
    pub members: Vec<WrittenMember<'a>>,
}

/// An enumeration under `[[type]]`.
#[derive(Drop)]
pub struct WrittenEnumeration<'a> {
    pub name: &'a [u8],
    pub base: &'a [u8],
    pub values: Vec<WrittenValue<'a>>,
}

/// `[[type]]`
#[derive(Drop)]
pub enum WrittenType<'a> {
    Structure(WrittenStructure<'a>),
    Enumeration(WrittenEnumeration<'a>),
}

/// `[[port.symbol]]`
#[derive(Drop)]
pub struct WrittenSymbol<'a> {
    pub name: &'a [u8],
    pub kind: &'a [u8],
    pub area: &'a [u8],
    pub offset: i64,
    pub comment: &'a [u8],
    pub persistent: bool,
    pub read_only: bool,
    pub initial: Option<&'a [u8]>,
    pub signal: Option<i64>,
    pub writers: Option<Vec<&'a [u8]>>,
}

/// `[[port]]`
#[derive(Drop)]
pub struct WrittenPort<'a> {
    pub number: i64,
    pub name: &'a [u8],
    pub major: i64,
    pub minor: i64,
    pub build: i64,
    pub inputs: i64,
    pub outputs: i64,
    pub memory: i64,
    /// The size under the key `data`.
    pub process: i64,
    pub symbols: Vec<WrittenSymbol<'a>>,
}

/// The whole document.
#[derive(Drop)]
pub struct Document<'a> {
    pub schema: i64,
    pub net: &'a [u8],
    pub routes: Vec<WrittenRoute<'a>>,
    pub types: Vec<WrittenType<'a>>,
    pub ports: Vec<WrittenPort<'a>>,
}

impl WrittenType<'_> {
    ghost use Rattle.std.specs.Prelude.{◌≡◌, length};
    ghost use Rattle.spec_rules.specs.Written.{written_name, written_members};
    ghost use Rattle.description_table.specs.Views.{type_view};

    /// The name of the type.
    pub fn name(&self) -> &[u8]
        ensures { result.now ≡ written_name (type_view self.now) }
    {
        match self {
            WrittenType::Structure(s) => s.name,
            WrittenType::Enumeration(e) => e.name,
        }
    }
    /// The number of members; an enumeration has none.
    pub fn member_count(&self) -> usize
        ensures { result ≡ length (written_members (type_view self.now)) }
    {
        match self {
            WrittenType::Structure(s) => s.members.len(),
            WrittenType::Enumeration(_) => 0,
        }
    }
}
