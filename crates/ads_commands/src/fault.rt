//! Why bytes are no request.

/// Why bytes are no request of a command.
#[derive(Clone, Copy, Debug, PartialEq, Eq)]
pub enum ReadFault {
    /// There is no command of this number: 0, or above 9.
    BadCommand,
    /// The bytes are not a text of the command.
    BadSize,
}
