//! The plain types.

ghost use Rattle.std.specs.Prelude.{◌≡◌, ◌<◌, ◌≤◌};
ghost use Rattle.spec_plant.specs.Plain.{kind_size, kind_id, kind_name};
ghost use Rattle.type_layout.specs.Shapes.{kind_of};

/// A plain type. Beckhoff Information System, data types of a PLC program.
///
/// | types | bytes |
/// |---|---|
/// | BOOL, SINT, USINT, BYTE | 1 |
/// | INT, UINT, WORD | 2 |
/// | DINT, UDINT, DWORD, TIME, REAL | 4 |
/// | LINT, ULINT, LWORD, LREAL | 8 |
#[derive(Clone, Copy, Debug, PartialEq, Eq)]
pub enum Kind {
    Bool,
    Sint,
    Usint,
    Byte,
    Int,
    Uint,
    Word,
    Dint,
    Udint,
    Dword,
    Time,
    Lint,
    Ulint,
    Lword,
    Real,
    Lreal,
}

impl Kind {
    /// The size in bytes, which is the alignment too.
    pub fn size(self) -> u32
        ensures value { result ≡ kind_size (kind_of self) }
        ensures small { (0 < result) × (result ≤ 8) }
    {
        match self {
            Kind::Bool | Kind::Sint | Kind::Usint | Kind::Byte => 1,
            Kind::Int | Kind::Uint | Kind::Word => 2,
            Kind::Dint | Kind::Udint | Kind::Dword | Kind::Time | Kind::Real => 4,
            Kind::Lint | Kind::Ulint | Kind::Lword | Kind::Lreal => 8,
        }
    }

    /// The type id, which entries of symbols and types tell.
    pub fn type_id(self) -> u32
        ensures { result ≡ kind_id (kind_of self) }
    {
        match self {
            Kind::Bool => 33,
            Kind::Sint => 16,
            Kind::Usint | Kind::Byte => 17,
            Kind::Int => 2,
            Kind::Uint | Kind::Word => 18,
            Kind::Dint => 3,
            Kind::Udint | Kind::Dword | Kind::Time => 19,
            Kind::Lint => 20,
            Kind::Ulint | Kind::Lword => 21,
            Kind::Real => 4,
            Kind::Lreal => 5,
        }
    }

    // The name in upper case.
    pub(crate) fn name(self) -> &'static str
        ensures { result.now ≡ kind_name (kind_of self) }
    {
        match self {
            Kind::Bool => "BOOL",
            Kind::Sint => "SINT",
            Kind::Usint => "USINT",
            Kind::Byte => "BYTE",
            Kind::Int => "INT",
            Kind::Uint => "UINT",
            Kind::Word => "WORD",
            Kind::Dint => "DINT",
            Kind::Udint => "UDINT",
            Kind::Dword => "DWORD",
            Kind::Time => "TIME",
            Kind::Lint => "LINT",
            Kind::Ulint => "ULINT",
            Kind::Lword => "LWORD",
            Kind::Real => "REAL",
            Kind::Lreal => "LREAL",
        }
    }
}
