//! Identifiers: an ASCII letter or `_`, and then ASCII letters, digits and `_`.
ghost use Rattle.std.specs.Prelude.{◌≡◌};
ghost use Rattle.std.specs.List.{list_all};
ghost use Rattle.name_paths.specs.Identifier.{is_identifier, is_identifier_start, is_identifier_byte};

/// Whether the text is an identifier: an ASCII letter or `_`, and then ASCII letters, digits
/// and `_`.
pub fn is_identifier(text: &[u8]) -> bool
    ensures { result ≡ is_identifier text.now }
{
    match text {
        [] => false,
        [first, others @ ..] => is_start(*first) && goes_on(others),
    }
}

fn goes_on(text: &[u8]) -> bool
    ensures { result ≡ list_all is_identifier_byte text.now }
{
    text.iter().all(|c| is_byte(*c))
}

fn is_start(c: u8) -> bool
    ensures { result ≡ is_identifier_start c }
{
    c.is_ascii_alphabetic() || c == b'_'
}

fn is_byte(c: u8) -> bool
    ensures { result ≡ is_identifier_byte c }
{
    c.is_ascii_alphanumeric() || c == b'_'
}
