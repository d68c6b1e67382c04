//! Laws of values and their texts.

ghost use Rattle.value_text.specs.Laws.{OneValue, ReadAgain, FullStringRefused, WrittenAgain, FindsValues};

/// No text is read as two values: with `to_text` and `from_text`, a number or hexadecimal digits come back as
/// they were.
pub fn a_text_has_one_value()
    ensures { OneValue }
{}

/// The text of a value is read as that value; but every true byte of BOOL comes back as 1, and behind a string's
/// first NUL stand NULs.
pub fn a_value_is_read_again()
    ensures { ReadAgain }
{}

/// The text of a string without a NUL is refused.
pub fn a_full_string_is_refused()
    ensures { FullStringRefused }
{}

/// The text of the value that was read is the text again; but hexadecimal digits come back in lower case.
pub fn a_text_is_written_again()
    ensures { WrittenAgain }
{}

/// The client's definitions find a value for a text exactly where the text is read as that value.
pub fn values_are_found()
    ensures { FindsValues }
{}
