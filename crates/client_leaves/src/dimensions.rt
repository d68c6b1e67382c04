//! The dimensions of type texts.

ghost use Rattle.std.specs.Prelude.{◌≡◌, ◌≤◌, ◌<◌, ◌^◌, IfOk, codes};
ghost use Rattle.spec_client.specs.LeafTypes.{elements_of, element_count};
ghost use Rattle.type_layout.specs.ReadTexts.{ends_of, text_of};

use type_layout::{Ends, TypeText};

/// How many elements one dimension has.
pub(crate) fn elements_of(ends: Ends) -> u64
    ensures count { result ≡ elements_of (ends_of ends) }
    ensures few { result ≤ 2 ^ 32 }
{
    let distance = i64::from(ends.high) - i64::from(ends.low);
    distance.unsigned_abs() + 1
}

/// How many elements there are, 1 where there are no dimensions.
pub(crate) fn element_count(text: &TypeText<'_>) -> u128
    ensures count { result ≡ element_count (text_of text.now).ends }
    ensures few { result ≤ 2 ^ 96 }
{
    if text.count == 0 {
        return 1;
    }
    let first = u128::from(elements_of(text.first));
    if text.count == 1 {
        return first;
    }
    let second = u128::from(elements_of(text.second));
    if text.count == 2 {
        return first * second;
    }
    let third = u128::from(elements_of(text.third));
    first * (second * third)
}
