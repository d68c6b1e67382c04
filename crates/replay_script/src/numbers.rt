//! Decimal numbers in a script.

ghost use Rattle.std.specs.Prelude.{◌≡◌, ◌^◌, ◌&&◌, nat_lt, Some, None, if◌then◌else◌};
ghost use Rattle.std.specs.Char.{is_ascii_digit};
ghost use Rattle.std.specs.List.{list_all};
ghost use Rattle.name_paths.specs.Number.{number_of_digits};
ghost use Rattle.spec_machine.specs.ScriptWords.{number_of_word, connection_of_word};

/// The number of a connection: from 1 to 4,294,967,295.
pub fn read_connection(word: &[u8]) -> Option<u32>
    ensures { result ≡ connection_of_word word.now }
{
    let number = read_number(word)?;
    if 0 < number && number <= u64::from(u32::MAX) {
        Some(number as u32)
    } else {
        None
    }
}

/// A decimal number of 64 bits without superfluous zeros.
pub fn read_number(word: &[u8]) -> Option<u64>
    ensures { result ≡ number_of_word word.now }
{
    if word.is_empty() || (word[0] == b'0' && word.len() != 1) {
        return None;
    }
    digits(word)
}

// The number of the digits, if all bytes are digits and it has 64 bits.
fn digits(word: &[u8]) -> Option<u64>
    ensures { result ≡ (if list_all is_ascii_digit word.now && nat_lt (number_of_digits word.now) (2 ^ 64)
        then Some (number_of_digits word.now) else None) }
{
    let mut number = 0u64;
    for digit in word {
        if !digit.is_ascii_digit() {
            return None;
        }
        number = number
            .checked_mul(10)?
            .checked_add(u64::from(*digit - b'0'))?;
    }
    Some(number)
}
