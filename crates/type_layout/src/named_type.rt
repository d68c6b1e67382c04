//! Named types.

use crate::{EnumType, StructType};
use ads_base::ListOf;

/// A structure or an enumeration.
#[derive(Debug, Drop)]
pub enum NamedType {
    Struct(StructType),
    Enum(EnumType),
}

/// The types of a description. Each names only earlier ones.
pub type Types = ListOf<NamedType>;
