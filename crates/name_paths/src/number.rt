//! Decimal numbers of an i32, with no superfluous zeros, no plus sign and no `-0`.
ghost use Rattle.std.specs.Prelude.{◌≡◌, ◌≤◌, ◌+◌, ◌-◌, ◌*◌, min};
ghost use Rattle.std.specs.List.{list_all};
ghost use Rattle.std.specs.Char.{is_ascii_digit};
ghost use Rattle.name_paths.specs.Number.{number_of, negated_of, unsigned_of, number_of_digits, is_decimal};

// More than each number that an i32 holds, its sign left aside.
const TOO_GREAT: u64 = 0x1_0000_0000;

/// The number that the text writes. None exactly where it is no decimal number of an i32, has a
/// superfluous zero or a plus sign, or is `-0`.
pub fn read_number(text: &[u8]) -> Option<i32>
    ensures { result ≡ number_of text.now }
{
    match text {
        [] => None,
        [b'-', digits @ ..] => read_negated(digits),
        _ => read_unsigned(text),
    }
}

fn read_unsigned(text: &[u8]) -> Option<i32>
    ensures { result ≡ unsigned_of text.now }
{
    let value = bounded_value(text);
    if is_decimal(text) && value < 0x8000_0000 {
        Some(value as i32)
    } else {
        None
    }
}

fn read_negated(text: &[u8]) -> Option<i32>
    ensures { result ≡ negated_of text.now }
{
    let value = bounded_value(text);
    if is_decimal(text) && 0 < value && value <= 0x8000_0000 {
        Some((0 - value as i64) as i32)
    } else {
        None
    }
}

fn is_decimal(text: &[u8]) -> bool
    ensures { result ≡ is_decimal text.now }
{
    match text {
        [] => false,
        [first, others @ ..] => are_digits(text) && (*first != b'0' || others.is_empty()),
    }
}

fn are_digits(text: &[u8]) -> bool
    ensures { result ≡ list_all is_ascii_digit text.now }
{
    text.iter().all(|c| c.is_ascii_digit())
}

// The number that the digits write, or `TOO_GREAT` where it is greater.
fn bounded_value(text: &[u8]) -> u64
    ensures { result ≡ min (number_of_digits text.now) TOO_GREAT }
{
    let mut value: u64 = 0;
    for c in text {
        value = next_value(value, *c);
    }
    value
}

fn next_value(value: u64, digit: u8) -> u64
    requires { value ≤ TOO_GREAT }
    ensures { result ≡ min (10 * value + (digit - 48)) TOO_GREAT }
{
    let next = 10 * value + u64::from(digit.saturating_sub(b'0'));
    next.min(TOO_GREAT)
}
