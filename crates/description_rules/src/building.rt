//! Members and enumerations, built from what a document writes.
ghost use Rattle.std.specs.Prelude.{◌≡◌, ◌≤◌, length, map, option_map, unwrap_or, IfOk, IsSome};
ghost use Rattle.type_layout.specs.Shapes.{kind_of};
ghost use Rattle.type_layout.specs.NamedTypes.{value_of, enumeration_of};
ghost use Rattle.description_rules.specs.TypesLeft.{enumeration_described};
ghost use Rattle.description_table.specs.Views.{value_view};

use crate::words::read_base;
use ads_base::{ListOf, NoMemory, Octets};
use description_table::{WrittenEnumeration, WrittenValue};
use std::alloc::Global;
use type_layout::{EnumType, EnumValue, EnumValues, Kind};

/// The enumeration that a document writes.
pub fn enumeration_of(alloc: Global, e: &WrittenEnumeration<'_>) -> Result<EnumType, NoMemory>
    ensures { IfOk result (λ t. enumeration_of t ≡ enumeration_described e.now.name.now e.now.base.now (map value_view e.now.values.items)) }
{
    let base = match read_base(e.base) {
        Some(base) => base,
        None => Kind::Sint,
    };
    let name = Octets::copy_of(alloc, e.name)?;
    let values = values_of(alloc, e.values.as_slice())?;
    Ok(EnumType { name, base, values })
}

fn values_of(alloc: Global, values: &[WrittenValue<'_>]) -> Result<EnumValues, NoMemory>
    ensures { IfOk result (λ built. map value_of built ≡ map value_view values.now) }
{
    let mut built = ListOf::new(alloc);
    for value in values {
        let named = value_of(alloc, value)?;
        built.push(alloc, named)?;
    }
    Ok(built)
}

fn value_of(alloc: Global, value: &WrittenValue<'_>) -> Result<EnumValue, NoMemory>
    ensures { IfOk result (λ v. value_of v ≡ value_view value.now) }
{
    let name = Octets::copy_of(alloc, value.name)?;
    Ok(EnumValue {
        name,
        number: value.number,
    })
}
