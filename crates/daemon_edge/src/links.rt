//! Links, followed to the name at which a file stands or would stand.

use crate::paths::folder_in;
use ads_base::NoMemory;
use cli_words::Text;
use std::alloc::Global;
use std::fs;
use std::io::{self, ErrorKind};
use std::rt::Files as SystemFiles;

/// The most links that are followed, as Linux does.
const MOST: u32 = 40;

/// The name to which a name leads: itself, or behind links the first that is none, whether something stands there or not.
pub(crate) fn target_of<R: SystemFiles>(alloc: Global, rt: &R, name: &str) -> io::Result<Text> {
    let mut at = copied(alloc, name)?;
    for _ in 0..MOST {
        if !is_link(rt, at.as_str()) {
            return Ok(at);
        }
        at = behind_link(alloc, rt, at.as_str())?;
    }
    Err(ErrorKind::FilesystemLoop.into())
}

fn is_link<R: SystemFiles>(rt: &R, name: &str) -> bool {
    match fs::symlink_metadata(rt, name) {
        Ok(found) => found.is_symlink(),
        Err(_) => false,
    }
}

// What a link names; a relative name begins at the link's folder.
fn behind_link<R: SystemFiles>(alloc: Global, rt: &R, link: &str) -> io::Result<Text> {
    let path = rt.read_link(alloc, link)?;
    let text = path.into_string();
    let target = text.as_str();
    if target.starts_with('/') {
        return copied(alloc, target);
    }
    let folder = folder_in(link);
    let name = format!(in alloc; "{folder}/{target}")?;
    copied(alloc, name.as_str())
}

fn copied(alloc: Global, name: &str) -> io::Result<Text> {
    match Text::copy_of(alloc, name) {
        Ok(text) => Ok(text),
        Err(NoMemory) => Err(ErrorKind::OutOfMemory.into()),
    }
}
