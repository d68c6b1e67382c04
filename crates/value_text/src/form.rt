//! How a value is written, by its type id and its size.

ghost use Rattle.std.specs.Prelude.{◌≡◌};
ghost use Rattle.spec_formats.specs.ValueText.{is_signed, is_unsigned, form_of};
ghost use Rattle.value_text.specs.Forms.{form_seen};
ghost use Rattle.value_text.specs.Parts.{HasForm};

/// How a value is written.
#[derive(Clone, Copy, Debug, PartialEq, Eq)]
pub(crate) enum Form {
    /// A signed decimal number.
    Signed,
    /// An unsigned decimal number.
    Unsigned,
    /// `FALSE` or `TRUE`.
    Truth,
    /// A text between single quotes.
    Quoted,
    /// `16#` and two digits a byte.
    Hexadecimal,
}

/// The form of a type id and a size.
#[tactic(auto, unfolding(spec_formats::specs::ValueText::form_of))]
pub(crate) fn form_of_type(type_id: u32, size: usize) -> Form
    ensures form { form_seen result ≡ form_of type_id size }
    ensures sizes { HasForm (form_seen result) size }
{
    if is_signed(type_id, size) {
        return Form::Signed;
    }
    if is_unsigned(type_id, size) {
        return Form::Unsigned;
    }
    if type_id == 33 && size == 1 {
        return Form::Truth;
    }
    if type_id == 30 && size > 0 {
        return Form::Quoted;
    }
    Form::Hexadecimal
}

fn is_signed(type_id: u32, size: usize) -> bool
    ensures { result ≡ is_signed type_id size }
{
    (type_id == 16 && size == 1)
        || (type_id == 2 && size == 2)
        || (type_id == 3 && size == 4)
        || (type_id == 20 && size == 8)
}

fn is_unsigned(type_id: u32, size: usize) -> bool
    ensures { result ≡ is_unsigned type_id size }
{
    (type_id == 17 && size == 1)
        || (type_id == 18 && size == 2)
        || (type_id == 19 && size == 4)
        || (type_id == 21 && size == 8)
}
