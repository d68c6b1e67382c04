//! Names, words and comments of a document.
ghost use Rattle.std.specs.Prelude.{◌≡◌, ◌&&◌, [], ◌∷◌, codes, is_none, nat_le};
ghost use Rattle.std.specs.List.{list_all};
ghost use Rattle.spec_plant.specs.TypeTexts.{is_same_word, kind_named};
ghost use Rattle.spec_plant.specs.AcceptedTypes.{differ, is_short_identifier, is_comment, is_type_name, is_count, type_words};
ghost use Rattle.spec_rules.specs.PortRules.{is_port_name};

use name_paths::is_identifier;
use type_layout::Kind;

/// Whether two texts are the same, ASCII case aside.
pub fn is_same_word(a: &[u8], b: &[u8]) -> bool
    ensures { result ≡ is_same_word a.now b.now }
{
    a.eq_ignore_ascii_case(b)
}

/// Whether two texts differ, ASCII case aside.
pub fn differs(a: &[u8], b: &[u8]) -> bool
    ensures { result ≡ differ a.now b.now }
{
    !is_same_word(a, b)
}

/// Whether a text is an identifier of at most 255 bytes.
pub fn is_short_identifier(text: &[u8]) -> bool
    ensures { result ≡ is_short_identifier text.now }
{
    is_identifier(text) && text.len() <= 255
}

/// Whether a text has at most 255 bytes, each from a space to a tilde.
pub fn is_comment(text: &[u8]) -> bool
    ensures { result ≡ is_comment text.now }
{
    text.len() <= 255 && is_printable(text)
}

/// Whether a text has at most 16 bytes, each from a space to a tilde.
pub fn is_port_name(text: &[u8]) -> bool
    ensures { result ≡ is_port_name text.now }
{
    text.len() <= 16 && is_printable(text)
}

fn is_printable(text: &[u8]) -> bool
    ensures { result ≡ list_all (λ c. nat_le 0x20 c && nat_le c 0x7E) text.now }
{
    text.iter().all(|c| is_printable_byte(*c))
}

fn is_printable_byte(c: u8) -> bool
    ensures { result ≡ (nat_le 0x20 c && nat_le c 0x7E) }
{
    0x20 <= c && c <= 0x7e
}

/// Whether a type may have this name.
pub fn is_type_name(text: &[u8]) -> bool
    ensures { result ≡ is_type_name text.now }
{
    is_short_identifier(text) && is_no_type_word(text)
}

fn is_no_type_word(text: &[u8]) -> bool
    ensures { result ≡ list_all (differ text.now) type_words }
{
    match Kind::named(text) {
        Some(_) => false,
        None => is_no_other_word(text),
    }
}

fn is_no_other_word(text: &[u8]) -> bool
    ensures { result ≡ list_all (differ text.now) (codes "STRING" ∷ codes "ARRAY" ∷ codes "OF" ∷ []) }
{
    differs(text, b"STRING") && differs(text, b"ARRAY") && differs(text, b"OF")
}

/// Whether a number is from 1 to 1,000.
pub fn is_count(n: usize) -> bool
    ensures { result ≡ is_count n }
{
    0 < n && n <= 1000
}
