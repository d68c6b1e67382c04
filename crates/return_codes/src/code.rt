//! The codes that ADS answers with: each with its number and its text.

ghost use Rattle.std.specs.Prelude.{◌≡◌, ◌↔◌, IsNone, IfSome, IfNone, Some, None};
ghost use Rattle.spec_formats.specs.Codes.{text_of_code};

use std::fmt;

/// A return code of ADS, named by its number: `C710` is 0x710.
///
/// Beckhoff Information System, "ADS Return Codes".
#[derive(Clone, Copy, Debug, PartialEq, Eq)]
pub enum Code {
    /// Target port not found.
    C6 = 6,
    /// Target machine not found.
    C7 = 7,
    /// Unknown command id.
    C8 = 8,
    /// Unknown AMS command.
    CB = 0xb,
    /// Invalid AMS length.
    CE = 0xe,
    /// General device error.
    C700 = 0x700,
    /// Service not supported.
    C701 = 0x701,
    /// Invalid index group.
    C702 = 0x702,
    /// Invalid index offset.
    C703 = 0x703,
    /// Reading or writing not permitted.
    C704 = 0x704,
    /// Parameter size not correct.
    C705 = 0x705,
    /// Invalid parameter value.
    C706 = 0x706,
    /// Symbol not found.
    C710 = 0x710,
    /// Symbol version invalid.
    C711 = 0x711,
    /// Transmission mode not supported.
    C713 = 0x713,
    /// Notification handle invalid.
    C714 = 0x714,
    /// No more notification handles.
    C716 = 0x716,
    /// Size for watch too big.
    C717 = 0x717,
    /// Invoke id in use.
    C744 = 0x744,
    /// Timeout elapsed.
    C745 = 0x745,
    /// Invalid response.
    C754 = 0x754,
}

// The codes in the order of the table.
const ALL: [Code; 21] = [
    Code::C6,
    Code::C7,
    Code::C8,
    Code::CB,
    Code::CE,
    Code::C700,
    Code::C701,
    Code::C702,
    Code::C703,
    Code::C704,
    Code::C705,
    Code::C706,
    Code::C710,
    Code::C711,
    Code::C713,
    Code::C714,
    Code::C716,
    Code::C717,
    Code::C744,
    Code::C745,
    Code::C754,
];

impl Code {
    ghost use Rattle.return_codes.specs.Code.{number_of, code_of};

    /// The number, as it stands on the wire.
    pub fn number(self) -> u32
        ensures { result ≡ number_of self }
    {
        self as u32
    }

    /// The code of a number, and none for a number that is not in the table.
    pub fn of(n: u32) -> Option<Code>
        ensures { result ≡ code_of n }
    {
        ALL.iter().copied().find(|code| code.number() == n)
    }

    /// The text of the table.
    #[tactic(auto, unfolding(spec_formats::specs::Codes::text_in))]
    pub fn text(self) -> &'static str
        ensures { text_of_code (number_of self) ≡ Some result.now }
    {
        match self {
            Code::C6 => "target port not found",
            Code::C7 => "target machine not found",
            Code::C8 => "unknown command id",
            Code::CB => "unknown AMS command",
            Code::CE => "invalid AMS length",
            Code::C700 => "general device error",
            Code::C701 => "service not supported",
            Code::C702 => "invalid index group",
            Code::C703 => "invalid index offset",
            Code::C704 => "reading or writing not permitted",
            Code::C705 => "parameter size not correct",
            Code::C706 => "invalid parameter value",
            Code::C710 => "symbol not found",
            Code::C711 => "symbol version invalid",
            Code::C713 => "transmission mode not supported",
            Code::C714 => "notification handle invalid",
            Code::C716 => "no more notification handles",
            Code::C717 => "size for watch too big",
            Code::C744 => "invoke id in use",
            Code::C745 => "timeout elapsed",
            Code::C754 => "invalid response",
        }
    }
}

/// Prints the number and the text, as `0x710 symbol not found`.
impl fmt::Display for Code {
    ghost use Rattle.return_codes.specs.Code.{shown};

    ghost output = { λ code. Some (shown code) };

    fn fmt<W: fmt::Write>(&self, f: &mut fmt::Formatter<W>) -> fmt::Result {
        let number = self.number();
        let text = self.text();
        write!(f, "0x{number:X} {text}")
    }
}
