//! The requests of calls.

ghost use Rattle.std.specs.Prelude.{◌≡◌, IfOk, OnOk, [], ◌∷◌};
ghost use Rattle.ads_commands.specs.Request.{request_meant};
ghost use Rattle.spec_client.specs.Calls as calls;
ghost use Rattle.client_replies.specs.Kept.{entry_kept, request_kept};
ghost use Rattle.client_replies.specs.Stages.{mode_meant, watching_kept};

use crate::call::Mode2;
use crate::own_entry::OwnEntry;
use crate::stage::Asked;
use crate::watching::Watching;
use ads_base::{NoMemory, Octets, put32};
use ads_commands::Request;
use index_groups::{
    EXTENDED_INFO_BY_NAME, HANDLE_BY_NAME, RELEASE_HANDLE, SYMBOL_UPLOAD, TYPE_UPLOAD, UPLOAD_INFO,
    UPLOAD_INFO_WITH_TYPES, VALUE_BY_HANDLE, VALUE_BY_NAME,
};
use std::alloc::Global;

impl Asked {
    /// The request, its data borrowed.
    pub fn as_request(&self) -> Request<'_>
        ensures { request_meant result ≡ request_kept self.now }
    {
        match self {
            Asked::DeviceInfo => Request::DeviceInfo,
            Asked::State => Request::State,
            Asked::Control { ads, device } => Request::Control {
                ads: *ads,
                device: *device,
                bytes: &[],
            },
            Asked::Read { group, offset, len } => Request::Read {
                group: *group,
                offset: *offset,
                len: *len,
            },
            Asked::Write {
                group,
                offset,
                bytes,
            } => Request::Write {
                group: *group,
                offset: *offset,
                bytes: bytes.as_slice(),
            },
            Asked::Add {
                group,
                offset,
                len,
                mode,
                cycle,
            } => Request::Add {
                group: *group,
                offset: *offset,
                len: *len,
                mode: *mode,
                delay: 0,
                cycle: *cycle,
            },
            Asked::Delete { handle } => Request::Delete { handle: *handle },
            Asked::ReadWrite {
                group,
                offset,
                read_len,
                bytes,
            } => Request::ReadWrite {
                group: *group,
                offset: *offset,
                read_len: *read_len,
                bytes: bytes.as_slice(),
            },
        }
    }
}

/// The entry of the symbol with this name.
pub(crate) fn entry_request(alloc: Global, name: &[u8]) -> Result<Asked, NoMemory>
    ensures { IfOk result (λ asked. request_kept asked ≡ calls.entry_request name.now) }
{
    let bytes = Octets::copy_of(alloc, name)?;
    Ok(Asked::ReadWrite {
        group: EXTENDED_INFO_BY_NAME,
        offset: 0,
        read_len: 65_536,
        bytes,
    })
}

/// The value of the symbol with this name and this size.
pub(crate) fn value_request(name: Octets, size: u32) -> Asked
    ensures { request_kept result ≡ calls.value_request name size }
{
    Asked::ReadWrite {
        group: VALUE_BY_NAME,
        offset: 0,
        read_len: size,
        bytes: name,
    }
}

/// A handle for the symbol with this name.
pub(crate) fn handle_request(name: Octets) -> Asked
    ensures { request_kept result ≡ calls.handle_request name }
{
    Asked::ReadWrite {
        group: HANDLE_BY_NAME,
        offset: 0,
        read_len: 4,
        bytes: name,
    }
}

/// A value is written by a handle.
pub(crate) fn write_request(handle: u32, value: Octets) -> Asked
    ensures { request_kept result ≡ calls.write_request handle value }
{
    Asked::Write {
        group: VALUE_BY_HANDLE,
        offset: handle,
        bytes: value,
    }
}

/// A handle is released.
pub(crate) fn release_request(alloc: Global, handle: u32) -> Result<Asked, NoMemory>
    ensures { IfOk result (λ asked. request_kept asked ≡ calls.release_request handle) }
{
    let mut bytes = Octets::new(alloc);
    put32(alloc, &mut bytes, handle)?;
    Ok(Asked::Write {
        group: RELEASE_HANDLE,
        offset: 0,
        bytes,
    })
}

/// The number of symbols, and the size of their upload.
pub(crate) fn upload_info_request() -> Asked
    ensures { request_kept result ≡ calls.upload_info_request }
{
    Asked::Read {
        group: UPLOAD_INFO,
        offset: 0,
        len: 8,
    }
}

/// The upload of the symbols.
pub(crate) fn upload_request(size: u32) -> Asked
    ensures { request_kept result ≡ calls.upload_request size }
{
    Asked::Read {
        group: SYMBOL_UPLOAD,
        offset: 0,
        len: size,
    }
}

/// The numbers of symbols and types, and the sizes of their uploads.
pub(crate) fn type_info_request() -> Asked
    ensures { request_kept result ≡ calls.type_info_request }
{
    Asked::Read {
        group: UPLOAD_INFO_WITH_TYPES,
        offset: 0,
        len: 24,
    }
}

/// The upload of the types.
pub(crate) fn type_upload_request(size: u32) -> Asked
    ensures { request_kept result ≡ calls.type_upload_request size }
{
    Asked::Read {
        group: TYPE_UPLOAD,
        offset: 0,
        len: size,
    }
}

/// Samples of a symbol.
pub(crate) fn addition_request(e: &OwnEntry, w: Watching) -> Asked
    ensures { request_kept result ≡ calls.addition_request (entry_kept e.now) (watching_kept w) }
{
    Asked::Add {
        group: e.group,
        offset: e.offset,
        len: e.size,
        mode: mode_number(w.mode),
        cycle: w.cycle,
    }
}

fn mode_number(mode: Mode2) -> u32
    ensures { result ≡ mode_meant mode }
{
    match mode {
        Mode2::Cycle => 3,
        Mode2::Change => 4,
    }
}
