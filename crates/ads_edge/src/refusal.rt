//! Why an address can't be used, in words.

ghost use Rattle.std.specs.Prelude.{◌≡◌, Some};
ghost use Rattle.std.specs.IoError.{error_kind, raw_os_error};
ghost use Rattle.ads_edge.specs.Refusal.{kind_words, refusal_line, refusal_of, refusal_words};

use std::fmt;
use std::io::{self, ErrorKind};

/// The program that a line on standard error names where no other is named.
pub(crate) const PROGRAM: &str = "ads";

/// Why a server can't listen at an address, or a client can't reach it.
#[derive(Clone, Copy)]
pub(crate) enum Refusal {
    /// The text is no IP address and port.
    NoAddress,
    /// The system refuses, for a reason that is known by its kind.
    Kind(ErrorKind),
    /// The system refuses, for a reason that is known by its number alone.
    Number(u32),
    /// The system tells no time, or one before 1970.
    NoTime,
}

impl Refusal {
    /// What the system answered.
    pub(crate) fn of(error: &io::Error) -> Refusal
        ensures { result ≡ refusal_of (error_kind error.now) (raw_os_error error.now) }
    {
        match (error.kind(), error.raw_os_error()) {
            (ErrorKind::Uncategorized, Some(number)) => Refusal::Number(number.unsigned_abs()),
            (kind, _) => Refusal::Kind(kind),
        }
    }
}

impl fmt::Display for Refusal {
    ghost output = { λ r. Some (refusal_words r) };

    fn fmt<W: fmt::Write>(&self, f: &mut fmt::Formatter<W>) -> fmt::Result {
        match self {
            Refusal::NoAddress => f.write_str("no IP address and port"),
            Refusal::Kind(kind) => f.write_str(words_of(*kind)),
            Refusal::Number(number) => write!(f, "system error {number}"),
            Refusal::NoTime => f.write_str("no time from the system's clock"),
        }
    }
}

// A kind in words. A sending that takes no byte for so long that it gives up would block.
fn words_of(kind: ErrorKind) -> &'static str
    ensures { result.now ≡ kind_words kind }
{
    match kind {
        ErrorKind::PermissionDenied => "permission denied",
        ErrorKind::ConnectionRefused => "connection refused",
        ErrorKind::ConnectionReset => "connection reset",
        ErrorKind::ConnectionAborted => "connection aborted",
        ErrorKind::NotConnected => "not connected",
        ErrorKind::BrokenPipe => "broken pipe",
        ErrorKind::HostUnreachable => "host unreachable",
        ErrorKind::NetworkUnreachable => "network unreachable",
        ErrorKind::NetworkDown => "network down",
        ErrorKind::AddrInUse => "address in use",
        ErrorKind::AddrNotAvailable => "address not available",
        ErrorKind::TimedOut | ErrorKind::WouldBlock => "timed out",
        ErrorKind::InvalidInput => "invalid input",
        ErrorKind::Unsupported => "unsupported",
        ErrorKind::OutOfMemory => "out of memory",
        _ => "refused by the system",
    }
}

/// The line on an address that can't be used, for standard error.
#[derive(Clone, Copy)]
pub(crate) struct RefusalLine<'a> {
    pub(crate) program: &'a str,
    pub(crate) place: &'a str,
    pub(crate) refusal: Refusal,
}

impl fmt::Display for RefusalLine<'_> {
    ghost output = { λ l. Some (refusal_line l.program.now l.place.now l.refusal) };

    fn fmt<W: fmt::Write>(&self, f: &mut fmt::Formatter<W>) -> fmt::Result {
        let program = self.program;
        let place = self.place;
        let refusal = self.refusal;
        write!(f, "{program}: {place}: {refusal}")
    }
}

/// Tells on standard error why an address can't be used. What can't be told is lost.
pub(crate) fn tell<R: Eprint>(rt: &R, program: &str, place: &str, refusal: Refusal) {
    let _ = rt.eprintln(RefusalLine {
        program,
        place,
        refusal,
    });
}
