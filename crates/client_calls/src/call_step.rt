//! A step of a call.

use ads_base::Octets;
use client_replies::CallEnd;
use sample_store::Row;

/// What a call gives when it has its turn.
#[derive(Debug, Drop)]
pub enum CallStep {
    /// Bytes are to be sent.
    Send(Octets),
    /// A text is to be printed.
    Print(Octets),
    /// A row is to be kept.
    Keep(Row),
    /// The call waits for more bytes.
    Wait,
    Over(CallEnd),
}
