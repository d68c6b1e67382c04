//! How a run of the program ends.

ghost use Rattle.std.specs.Prelude.{◌≡◌};

use ads_base::Peer;

/// The status with which the program ends.
#[derive(Debug, Drop)]
pub enum Status {
    /// The command ended.
    Done,
    /// The words are no command.
    Usage,
    /// The least broken rule of the description, and in it the least item; rule 0 for no TOML document.
    BadDescription { number: u8, item: u32 },
    /// The script's first line off the grammar has this number, counted from 1.
    BadScript(u32),
    /// A file could not be read.
    ReadFault,
    /// Standard output could not be written.
    WriteFault,
    /// The wire could not be started, or gave no further event; or the link failed.
    LinkFault,
    /// As many events were taken as were allowed, or too many answers of a link were waited for.
    Budget,
    /// An answer to a request of a client had this AMS error or, that being 0, this result.
    Refused(u32),
    /// A peer broke the protocol, or closed the connection before the call was over: what it did.
    BadPeer(Peer),
    /// No answer came: the moments of the request and of the tick by which it timed out.
    TimedOut { sent: u64, now: u64 },
    /// The text is no value of the symbol.
    BadValue,
    /// Memory was wanting.
    Memory,
    /// A file has more than 16,777,216 bytes.
    TooLong,
    /// The disk that values are kept on failed.
    StoreFault,
    /// What is to be kept is above a limit of the store: a body of 1,048,576 bytes, or the last number of a save or a row.
    StoreLimit,
    /// The keeper of recorded samples failed.
    KeeperFault,
}

impl Status {
    ghost use Rattle.run_tasks.specs.StatusTable.{number_of};

    /// The exit status of the process.
    pub fn number(&self) -> u8
        ensures { result ≡ number_of self.now }
    {
        match self {
            Status::Done => 0,
            Status::Usage => 1,
            Status::BadDescription { .. } => 2,
            Status::BadScript(_) => 3,
            Status::ReadFault => 4,
            Status::WriteFault => 5,
            Status::LinkFault => 6,
            Status::Budget => 7,
            Status::Refused(_) => 8,
            Status::BadPeer(_) => 9,
            Status::Memory => 10,
            Status::TimedOut { .. } => 11,
            Status::TooLong => 12,
            Status::BadValue => 13,
            Status::StoreFault => 14,
            Status::StoreLimit => 15,
            Status::KeeperFault => 16,
        }
    }
}
