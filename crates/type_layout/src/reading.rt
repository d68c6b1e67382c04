//! Reading type texts.

ghost use Rattle.std.specs.Prelude.{◌≡◌, ◌≤◌, length, take, drop, map, find, true, false, option_map, MatchOption, IfSome, IsTrue};
ghost use Rattle.std.specs.List.{slice_split, position_or_len};
ghost use Rattle.name_paths.specs.Path.{is_comma};
ghost use Rattle.spec_plant.specs.Plain.{kind_name};
ghost use Rattle.spec_plant.specs.TypeTexts as texts;
ghost use Rattle.type_layout.specs.Shapes.{kind_of};
ghost use Rattle.type_layout.specs.ReadTexts.{ends_of, elem_text_of, text_of, HasBlankEnds};
ghost use Rattle.type_layout.specs.Dimensions.{all_ends, HasBlanks};

use crate::words::{before_comma, behind_word, first_place, is_same_word};
use crate::{ElemText, Ends, Kind, TypeText};
use name_paths::{is_identifier, read_number};

const NO_ENDS: Ends = Ends { low: 0, high: 0 };

/// The type that a text writes, in any case of letters. None exactly off the grammar, in which any identifier that is
/// no plain type and none of `STRING`, `ARRAY` and `OF` stands for the name of a type.
pub fn read_type_text(text: &[u8]) -> Option<TypeText<'_>>
    ensures value { option_map text_of result ≡ texts.type_text_of text.now }
    ensures blanks { IfSome result HasBlankEnds }
{
    match behind_word(text, b"ARRAY [") {
        Some(rest) => read_array(rest),
        None => {
            let elem = read_elem(text)?;
            Some(TypeText {
                count: 0,
                first: NO_ENDS,
                second: NO_ENDS,
                third: NO_ENDS,
                elem,
            })
        }
    }
}

// The dimensions of an array.
#[derive(Clone, Copy)]
pub(crate) struct Dimensions {
    pub count: u8,
    pub first: Ends,
    pub second: Ends,
    pub third: Ends,
}

// An array, behind `ARRAY [`.
fn read_array(text: &[u8]) -> Option<TypeText<'_>>
    ensures value { option_map text_of result ≡ texts.array_text_of text.now }
    ensures blanks { IfSome result HasBlankEnds }
{
    let (inside, rest) = text.split_at(first_place(text, b']'));
    let Dimensions {
        count,
        first,
        second,
        third,
    } = read_dimensions(inside)?;
    let elem = read_array_elem(rest)?;
    Some(TypeText {
        count,
        first,
        second,
        third,
        elem,
    })
}

// What stands behind the dimensions: `] OF ` and an element.
fn read_array_elem(text: &[u8]) -> Option<ElemText<'_>>
    ensures { option_map elem_text_of result ≡ texts.array_elem_of text.now }
{
    match behind_word(text, b"] OF ") {
        Some(rest) => read_elem(rest),
        None => None,
    }
}

// One to three dimensions joined by commas.
fn read_dimensions(text: &[u8]) -> Option<Dimensions>
    ensures value { option_map all_ends result ≡ texts.dimensions_of text.now }
    ensures blanks { IfSome result HasBlanks }
{
    let (one, rest) = before_comma(text);
    let first = read_ends(one)?;
    let Some(text) = rest else {
        return Some(Dimensions {
            count: 1,
            first,
            second: NO_ENDS,
            third: NO_ENDS,
        });
    };
    let (two, rest) = before_comma(text);
    let second = read_ends(two)?;
    let Some(text) = rest else {
        return Some(Dimensions {
            count: 2,
            first,
            second,
            third: NO_ENDS,
        });
    };
    let (three, rest) = before_comma(text);
    let None = rest else {
        return None;
    };
    let third = read_ends(three)?;
    Some(Dimensions {
        count: 3,
        first,
        second,
        third,
    })
}

// `l..u`
fn read_ends(text: &[u8]) -> Option<Ends>
    ensures { option_map ends_of result ≡ texts.ends_of text.now }
{
    let (before, rest) = text.split_at(first_place(text, b'.'));
    let low = read_number(before)?;
    let high = read_high(rest)?;
    if low <= high {
        Some(Ends { low, high })
    } else {
        None
    }
}

// `..u`
fn read_high(text: &[u8]) -> Option<i32>
    ensures { result ≡ texts.high_text_of text.now }
{
    match text {
        [b'.', b'.', rest @ ..] => read_number(rest),
        _ => None,
    }
}

// A plain type, a text type, or the name of a type.
fn read_elem(text: &[u8]) -> Option<ElemText<'_>>
    ensures { option_map elem_text_of result ≡ texts.elem_text_of text.now }
{
    match Kind::named(text) {
        Some(kind) => Some(ElemText::Plain(kind)),
        None => read_other_elem(text),
    }
}

fn read_other_elem(text: &[u8]) -> Option<ElemText<'_>>
    ensures { option_map elem_text_of result ≡ texts.other_elem_of text.now }
{
    if is_same_word(text, b"STRING") {
        return Some(ElemText::Text(80));
    }
    match behind_word(text, b"STRING(") {
        Some(rest) => {
            let n = read_string_length(rest)?;
            Some(ElemText::Text(n))
        }
        None => read_name(text),
    }
}

// A number up to 65,534, and a closing parenthesis.
fn read_string_length(text: &[u8]) -> Option<u16>
    ensures { result ≡ texts.string_length_of text.now }
{
    let [digits @ .., b')'] = text else {
        return None;
    };
    let n = read_number(digits)?;
    if 0 <= n && n <= 65_534 {
        Some(n as u16)
    } else {
        None
    }
}

fn read_name(text: &[u8]) -> Option<ElemText<'_>>
    ensures { option_map elem_text_of result ≡ texts.named_text_of text.now }
{
    if is_identifier(text) && !is_same_word(b"ARRAY", text) && !is_same_word(b"OF", text) {
        Some(ElemText::Named(text))
    } else {
        None
    }
}

impl Kind {
    /// The plain type with this name, ASCII case aside.
    pub fn named(text: &[u8]) -> Option<Kind>
        ensures { option_map kind_of result ≡ texts.kind_named text.now }
    {
        let kinds = [
            Kind::Bool,
            Kind::Sint,
            Kind::Usint,
            Kind::Byte,
            Kind::Int,
            Kind::Uint,
            Kind::Word,
            Kind::Dint,
            Kind::Udint,
            Kind::Dword,
            Kind::Time,
            Kind::Lint,
            Kind::Ulint,
            Kind::Lword,
            Kind::Real,
            Kind::Lreal,
        ];
        first_named(&kinds, text)
    }
}

fn first_named(kinds: &[Kind], text: &[u8]) -> Option<Kind>
    ensures { option_map kind_of result
        ≡ find (λ k. texts.is_same_word (kind_name k) text.now) (map kind_of kinds.now) }
{
    for kind in kinds {
        if is_same_word(kind.name().as_bytes(), text) {
            return Some(*kind);
        }
    }
    None
}
