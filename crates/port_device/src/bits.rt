//! One bit of a byte.

ghost use Rattle.std.specs.Prelude.{◌≡◌, ◌<◌, ◌/◌, ◌%◌, ◌^◌, min};
ghost use Rattle.spec_machine.specs.Access.{with_bit};

/// A bit of a byte, 0 or 1.
pub(crate) fn bit_of(byte: u8, bit: u8) -> u8
    requires { bit < 8 }
    ensures { result ≡ (byte / 2 ^ bit) % 2 }
{
    byte / unit_of(bit) % 2
}

/// A byte with one bit cleared by 0 and set by any other value.
pub(crate) fn with_bit(byte: u8, bit: u8, value: u8) -> u8
    requires { bit < 8 }
    ensures { result ≡ with_bit bit (min value 1) byte }
{
    let unit = unit_of(bit);
    let cleared = byte - byte / unit % 2 * unit;
    if value == 0 { cleared } else { cleared + unit }
}

// The value of a bit.
fn unit_of(bit: u8) -> u8
    requires { bit < 8 }
    ensures { result ≡ 2 ^ bit }
{
    match bit {
        0 => 1,
        1 => 2,
        2 => 4,
        3 => 8,
        4 => 16,
        5 => 32,
        6 => 64,
        _ => 128,
    }
}
