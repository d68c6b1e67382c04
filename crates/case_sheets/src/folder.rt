//! The files of a folder.

use std::env::{self, Env};
use std::rt::Files;
use std::{fs, io};

/// A file of the folder.
#[derive(Drop)]
pub struct Sheet {
    pub name: String,
    pub bytes: Vec<u8>,
}

/// The files of the folder that the program's argument names, or of the current one, in the order of their names.
pub fn read_all<R: Files + Env + AllocGlobal + Clone + Drop>(rt: &R) -> io::Result<Vec<Sheet>> {
    let folder = named_folder(rt)?;
    let mut sheets = Vec::new(rt.alloc());
    for name in names_in(rt, folder.as_str())? {
        let path = format!(in rt.alloc(); "{folder}/{name}")?;
        let bytes = fs::read(rt, path.as_str())?;
        sheets.push(Sheet { name, bytes })?;
    }
    Ok(sheets)
}

fn named_folder<R: Env + AllocGlobal>(rt: &R) -> io::Result<String> {
    match env::args(rt)?.nth(1) {
        Some(name) => Ok(name),
        None => Ok(String::from_str(rt.alloc(), ".")?),
    }
}

fn names_in<R: Files + AllocGlobal + Clone + Drop>(
    rt: &R,
    folder: &str,
) -> io::Result<Vec<String>> {
    let mut names = Vec::new(rt.alloc());
    for entry in fs::read_dir(rt, folder)? {
        let name = String::from_str(rt.alloc(), entry?.file_name())?;
        names.push(name)?;
    }
    names.sort()?;
    Ok(names)
}
