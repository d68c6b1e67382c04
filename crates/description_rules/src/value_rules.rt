//! Description rule 7: values of enumerations.
ghost use Rattle.std.specs.Prelude.{◌≡◌, ◌&&◌, [], length, map, is_none, false, IfOk};
ghost use Rattle.std.specs.Option.{option_map_or};
ghost use Rattle.spec_plant.specs.AcceptedTypes.{is_short_identifier, is_in_range, is_count};
ghost use Rattle.spec_rules.specs.Places.{first_wrong};
ghost use Rattle.spec_rules.specs.TypeRules.{is_right_value, are_right_values};
ghost use Rattle.spec_rules.specs.Described as described;
ghost use Rattle.type_layout.specs.Shapes.{kind_of};
ghost use Rattle.description_rules.specs.NextValue.{IsNextValue};
ghost use Rattle.description_table.specs.Views.{value_view};

use crate::names::{is_count, is_short_identifier};
use crate::numbers::is_in_range;
use crate::seen::{SeenTexts, note_lower};
use crate::seen_numbers::{SeenNumbers, note_number};
use crate::words::read_base;
use ads_base::NoMemory;
use description_table::WrittenValue;
use std::alloc::Global;
use type_layout::Kind;

/// Whether an enumeration has a base and 1 to 1,000 right values.
pub fn are_right_values(
    alloc: Global,
    base: &[u8],
    values: &[WrittenValue<'_>],
) -> Result<bool, NoMemory>
    ensures { IfOk result (λ right. right
        ≡ (is_count (length (map value_view values.now)) && option_map_or (are_right_values (map value_view values.now)) (described.base_of base.now) false)) }
{
    if !is_count(values.len()) {
        return Ok(false);
    }
    match read_base(base) {
        None => Ok(false),
        Some(base) => has_no_wrong_value(alloc, base, values),
    }
}

fn has_no_wrong_value(
    alloc: Global,
    base: Kind,
    values: &[WrittenValue<'_>],
) -> Result<bool, NoMemory>
    ensures { IfOk result (λ right. right ≡ are_right_values (map value_view values.now) (kind_of base)) }
{
    let first = first_wrong_value(alloc, base, values)?;
    Ok(first.is_none())
}

fn first_wrong_value(
    alloc: Global,
    base: Kind,
    values: &[WrittenValue<'_>],
) -> Result<Option<usize>, NoMemory>
    ensures { IfOk result (λ place. place ≡ first_wrong (is_right_value (kind_of base)) [] (map value_view values.now)) }
{
    let mut names = SeenTexts::new(alloc);
    let mut numbers = SeenNumbers::new(alloc);
    first_wrong_behind(alloc, &mut names, &mut numbers, base, values)
}

fn first_wrong_behind(
    alloc: Global,
    names: &mut SeenTexts,
    numbers: &mut SeenNumbers,
    base: Kind,
    values: &[WrittenValue<'_>],
) -> Result<Option<usize>, NoMemory>
    requires names { names.old ≡ [] }
    requires numbers { numbers.old ≡ [] }
    ensures { IfOk result (λ place. place ≡ first_wrong (is_right_value (kind_of base)) [] (map value_view values.now)) }
{
    for (i, value) in values.iter().enumerate() {
        if !is_right_value(alloc, names, numbers, base, value)? {
            return Ok(Some(i));
        }
    }
    Ok(None)
}

fn is_right_value(
    alloc: Global,
    names: &mut SeenTexts,
    numbers: &mut SeenNumbers,
    base: Kind,
    value: &WrittenValue<'_>,
) -> Result<bool, NoMemory>
    ensures { IfOk result (IsNextValue (kind_of base) (value_view value.now) names.old numbers.old names.new numbers.new) }
{
    let right = is_value(base, value);
    let new = note_lower(alloc, names, right, value.name)?;
    note_number(numbers, new, value.number)
}

fn is_value(base: Kind, value: &WrittenValue<'_>) -> bool
    ensures { result ≡ (is_short_identifier value.now.name.now && is_in_range (kind_of base) value.now.number) }
{
    is_short_identifier(value.name) && is_in_range(base, value.number)
}
