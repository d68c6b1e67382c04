//! What stands under a name.

ghost use Rattle.std.specs.Prelude.{◌≡◌};
ghost use Rattle.store_file.specs.Kinds.{kind_of_mode};

/// What stands under a name.
#[derive(Clone, Copy, Debug, PartialEq, Eq)]
pub enum FileKind {
    Regular,
    Folder,
    Pipe,
    Socket,
    Device,
    Other,
}

impl FileKind {
    /// What a person calls it.
    pub fn word(self) -> &'static str {
        match self {
            FileKind::Regular => "a regular file",
            FileKind::Folder => "a folder",
            FileKind::Pipe => "a pipe",
            FileKind::Socket => "a socket",
            FileKind::Device => "a device",
            FileKind::Other => "no regular file",
        }
    }
}

/// What a mode says, as stat(2) gives it.
pub fn kind_of(mode: u32) -> FileKind
    ensures { result ≡ kind_of_mode mode }
{
    let bits = mode & 0o170_000;
    if bits == 0o100_000 {
        FileKind::Regular
    } else if bits == 0o040_000 {
        FileKind::Folder
    } else if bits == 0o010_000 {
        FileKind::Pipe
    } else if bits == 0o140_000 {
        FileKind::Socket
    } else if bits == 0o020_000 || bits == 0o060_000 {
        FileKind::Device
    } else {
        FileKind::Other
    }
}
