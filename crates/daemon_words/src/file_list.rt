//! The files of a daemon, of which no two are one by a slip.

ghost use Rattle.std.specs.Prelude.{◌≡◌, ◌++◌, ◌∷◌, [], false, OnOk};
ghost use Rattle.std.specs.List.{list_any};
ghost use Rattle.daemon_words.specs.Files.{is_slip};

use crate::{FileUse, SetupFault};
use ads_base::ListOf;
use cli_words::Text;
use daemon_outside::Place;
use std::alloc::Global;

/// A file of a daemon: what it is to it, its name, and what stands there.
#[derive(Debug, Drop)]
pub struct FileNamed {
    pub kind: FileUse,
    pub name: Text,
    pub place: Place,
}

impl FileNamed {
    /// Whether two are one file by a slip.
    pub fn is_slip_with(&self, other: &FileNamed) -> bool
        ensures { result ≡ is_slip self.now other.now }
    {
        !self.kind.may_share(other.kind)
            && (self.name.as_str() == other.name.as_str() || self.place.is_that_of(&other.place))
    }
}

/// Adds a file behind the others, where it is one with none of them by a slip.
pub(crate) fn add_file(
    alloc: Global,
    list: &mut ListOf<FileNamed>,
    file: FileNamed,
) -> Result<(), SetupFault>
    ensures free { OnOk result (list_any (λ f. is_slip f file) list.old ≡ false) }
    ensures added { OnOk result (list.new ≡ list.old ++ file ∷ []) }
{
    if is_slip_among(list.as_slice(), &file) {
        return Err(slip_among(alloc, list.as_slice(), &file));
    }
    list.push(alloc, file)?;
    Ok(())
}

// Whether a file is one with one of these by a slip.
fn is_slip_among(list: &[FileNamed], file: &FileNamed) -> bool
    ensures { result ≡ list_any (λ f. is_slip f file.now) list.now }
{
    list.iter().any(|one| one.is_slip_with(file))
}

// The first slip with one of these, of which there is one.
fn slip_among(alloc: Global, list: &[FileNamed], file: &FileNamed) -> SetupFault {
    for one in list {
        if one.is_slip_with(file) {
            return slip_of(alloc, one, file);
        }
    }
    SetupFault::Memory
}

fn slip_of(alloc: Global, one: &FileNamed, other: &FileNamed) -> SetupFault {
    match (
        Text::copy_of(alloc, one.name.as_str()),
        Text::copy_of(alloc, other.name.as_str()),
    ) {
        (Ok(name), Ok(second)) => SetupFault::OneFile(one.kind, name, other.kind, second),
        _ => SetupFault::Memory,
    }
}
