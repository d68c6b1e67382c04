//! Enumerations and their values.

use crate::Kind;
use ads_base::{ListOf, Octets};

/// A named value of an enumeration.
#[derive(Debug, Drop)]
pub struct EnumValue {
    pub name: Octets,
    pub number: i64,
}

/// The values of an enumeration; a symbol of it begins with the first one.
pub type EnumValues = ListOf<EnumValue>;

/// An enumeration, which lies in memory as its base does.
#[derive(Debug, Drop)]
pub struct EnumType {
    pub name: Octets,
    pub base: Kind,
    pub values: EnumValues,
}
