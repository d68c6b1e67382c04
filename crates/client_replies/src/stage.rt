//! Where a call stands, and what it gives to be done.

ghost use Rattle.std.specs.Prelude.{◌≡◌, map};
ghost use Rattle.spec_client.specs.Stages.{entries_taken};
ghost use Rattle.client_replies.specs.Kept.{entry_kept};
ghost use Rattle.client_replies.specs.Stages.{stage_kept};

use crate::own_entry::OwnEntry;
use crate::recording::{RecordWait, Recording};
use crate::watching::Watching;
use ads_base::{ListOf, Octets, Peer};
use client_leaves::Leaf;
use sample_store::Row;

/// How a call ended. Moments count 100 ns from 1 January 1601.
#[derive(Debug, Drop)]
pub enum CallEnd {
    Done,
    /// An answer had this AMS error or, that being 0, this result.
    Refused(u32),
    /// The peer broke the protocol.
    BadPeer(Peer),
    /// The text is no value of the symbol.
    BadValue,
    /// No answer came: the moments of the request and of the tick by which it timed out.
    TimedOut { sent: u64, now: u64 },
}

/// A request of a call, with its data.
///
/// Beckhoff Information System, "ADS Commands".
#[derive(Debug, Drop)]
pub enum Asked {
    DeviceInfo,
    State,
    Control {
        ads: u16,
        device: u16,
    },
    Read {
        group: u32,
        offset: u32,
        len: u32,
    },
    Write {
        group: u32,
        offset: u32,
        bytes: Octets,
    },
    /// Samples without a delay.
    Add {
        group: u32,
        offset: u32,
        len: u32,
        mode: u32,
        cycle: u32,
    },
    Delete {
        handle: u32,
    },
    ReadWrite {
        group: u32,
        offset: u32,
        read_len: u32,
        bytes: Octets,
    },
}

/// What a call gives to be done.
#[derive(Debug, Drop)]
pub enum Output {
    ToSend(Asked),
    ToPrint(Octets),
    ToKeep(Row),
}

/// What a symbol's entry is asked for.
#[derive(Debug, Drop)]
pub enum Purpose {
    ToGet,
    /// The value of this text is written.
    ToSet(Octets),
    ToWatch(Watching),
    /// The leaves of its value are printed.
    ToShow,
}

/// Where a call stands: what it waits for.
#[derive(Debug, Drop)]
pub enum Stage {
    AwaitsFacts,
    AwaitsState,
    /// The answer to WriteControl, or to the release of a handle.
    AwaitsOk,
    /// The answer to DeleteDeviceNotification.
    AwaitsDeletion,
    AwaitsEntry(Purpose, Octets),
    AwaitsValue(OwnEntry),
    /// A handle, by which this value is written then.
    AwaitsHandle(Octets),
    AwaitsWrite(u32),
    AwaitsUploadInfo,
    AwaitsUpload(u32),
    AwaitsNotification(OwnEntry, Watching),
    /// So many samples of the notification with this handle.
    Watches(OwnEntry, u32, u32),
    /// The number of types, and the size of their upload.
    AwaitsTypeInfo(Octets, OwnEntry),
    /// The upload of so many types.
    AwaitsTypes(Octets, OwnEntry, u32),
    /// A value of this size, whose leaves are printed.
    AwaitsLeaves(u32, ListOf<Leaf>),
    Records(RecordWait, Recording),
    Finished(CallEnd),
    /// A recording that ended, with the entries that it took.
    FinishedRecording(CallEnd, ListOf<OwnEntry>),
}

impl Stage {
    /// The entries that a recording took, in the order of its names, also where it has ended.
    pub fn entries(&self) -> &[OwnEntry]
        ensures { map entry_kept result.now ≡ entries_taken (stage_kept self.now) }
    {
        match self {
            Stage::Records(_, r) => r.entries.as_slice(),
            Stage::FinishedRecording(_, entries) => entries.as_slice(),
            _ => &[],
        }
    }
}

/// Where a call stands then, and what is to be done before anything more is heard.
#[derive(Debug, Drop)]
pub struct Progress {
    pub stage: Stage,
    pub outputs: ListOf<Output>,
}
