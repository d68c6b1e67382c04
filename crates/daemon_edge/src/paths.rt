//! Parts of the name of a file.

/// The folder of a name: what stands in front of its last `/`.
pub(crate) fn folder_in(name: &str) -> &str {
    match name.rsplit_once('/') {
        Some(("", _)) => "/",
        Some((folder, _)) => folder,
        None => ".",
    }
}

/// The last name in a name: what stands behind its last `/`; None where that names no file of its own.
pub(crate) fn last_in(name: &str) -> Option<&str> {
    let last = match name.rsplit_once('/') {
        Some((_, last)) => last,
        None => name,
    };
    if last.is_empty() || last == "." || last == ".." {
        return None;
    }
    Some(last)
}
