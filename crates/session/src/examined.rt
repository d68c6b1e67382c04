//! What the checks of a packet say.

use ads_commands::Request;
use ams_header::Header;
use return_codes::Code;
use type_layout::Rights;

/// What a packet comes to before its request is run.
#[derive(Clone, Copy)]
pub(crate) enum Examined<'a> {
    /// It gets no answer.
    Silent,
    /// It ends the connection.
    Close,
    /// It gets an AMS error.
    Error(Header, Code),
    /// Its request is refused for its size, 0x705.
    Refused(Header),
    /// A request from a source with these rights, to a port that is there.
    Asked(Header, Rights, Request<'a>),
}
