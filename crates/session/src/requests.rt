//! What requests ask for, each as one value.

ghost use Rattle.std.specs.Prelude.{◌≡◌};

/// What Read asks for.
#[derive(Clone, Copy)]
pub(crate) struct ReadRequest {
    pub(crate) group: u32,
    pub(crate) offset: u32,
    pub(crate) len: u32,
}

/// What Write asks for.
#[derive(Clone, Copy)]
pub(crate) struct WriteRequest<'a> {
    pub(crate) group: u32,
    pub(crate) offset: u32,
    pub(crate) bytes: &'a [u8],
}

impl<'a> WriteRequest<'a> {
    #[inline(always)]
    pub(crate) fn new(group: u32, offset: u32, bytes: &'a [u8]) -> WriteRequest<'a>
        ensures { result ≡ record { group = group; offset = offset; bytes = bytes.entry } }
    {
        WriteRequest {
            group,
            offset,
            bytes,
        }
    }
}

/// What ReadWrite asks for. Where the group is that of a sum, its offset is how many parts it has.
#[derive(Clone, Copy)]
pub(crate) struct ReadWriteRequest<'a> {
    pub(crate) group: u32,
    pub(crate) offset: u32,
    pub(crate) len: u32,
    pub(crate) bytes: &'a [u8],
}

impl<'a> ReadWriteRequest<'a> {
    #[inline(always)]
    pub(crate) fn new(group: u32, offset: u32, len: u32, bytes: &'a [u8]) -> ReadWriteRequest<'a>
        ensures { result ≡ record { group = group; offset = offset; len = len; bytes = bytes.entry } }
    {
        ReadWriteRequest {
            group,
            offset,
            len,
            bytes,
        }
    }
}

/// What AddDeviceNotification asks for. The greatest delay is not looked at.
#[derive(Clone, Copy)]
pub(crate) struct NoteRequest {
    pub(crate) group: u32,
    pub(crate) offset: u32,
    pub(crate) len: u32,
    pub(crate) mode: u32,
    pub(crate) cycle: u32,
}

impl NoteRequest {
    #[inline(always)]
    pub(crate) fn new(group: u32, offset: u32, len: u32, mode: u32, cycle: u32) -> NoteRequest
        ensures { result ≡ record { group = group; offset = offset; len = len; mode = mode; cycle = cycle } }
    {
        NoteRequest {
            group,
            offset,
            len,
            mode,
            cycle,
        }
    }
}
