//! Requests are read.

ghost use Rattle.std.specs.Prelude.{◌≡◌, ℕ, ◌<◌, ◌≤◌, ◌⊎◌, ◌↔◌, IfOk, option_map};
ghost use Rattle.std.specs.Result.{result_ok};
ghost use Rattle.spec_formats.specs.Request.{IsRequestPayload, request_of};
ghost use Rattle.ads_commands.specs.Request.{IsCommand, IsNoRequest, request_meant};

use crate::lengths::data_behind;
use crate::{ReadFault, Request};
use ads_base::{get16, get32};

/// The request that a payload of this command is. The 16 reserved bytes of `Add` may hold anything.
pub fn read_request(command: u16, bytes: &[u8]) -> Result<Request<'_>, ReadFault>
    ensures text { IfOk result (λ r. IsRequestPayload command bytes.now (request_meant r)) }
    ensures bad_command { (result ≡ Err ReadFault.BadCommand) ↔ ((command ≡ 0) ⊎ (9 < command)) }
    ensures bad_size { (result ≡ Err ReadFault.BadSize) ↔ (IsCommand command × IsNoRequest command bytes.now) }
    ensures read { option_map request_meant (result_ok result) ≡ request_of command bytes.now }
{
    if command == 0 || command > 9 {
        return Err(ReadFault::BadCommand);
    }
    request_in(command, bytes).ok_or(ReadFault::BadSize)
}

// The table of commands.
fn request_in(command: u16, bytes: &[u8]) -> Option<Request<'_>>
    requires { IsCommand command }
    ensures { option_map request_meant result ≡ request_of command bytes.now }
{
    match command {
        1 => info_in(bytes),
        2 => read_in(bytes),
        3 => write_in(bytes),
        4 => state_in(bytes),
        5 => control_in(bytes),
        6 => addition_in(bytes),
        7 => deletion_in(bytes),
        8 => note_in(bytes),
        _ => read_write_in(bytes),
    }
}

#[tactic(auto, unfolding(spec_formats::specs::Request::request_of, spec_formats::specs::Request::request_in))]
fn info_in(bytes: &[u8]) -> Option<Request<'_>>
    ensures { option_map request_meant result ≡ request_of 1 bytes.now }
{
    if bytes.len() != 0 {
        return None;
    }
    Some(Request::DeviceInfo)
}

#[tactic(auto, unfolding(spec_formats::specs::Request::request_of, spec_formats::specs::Request::request_in))]
fn read_in(bytes: &[u8]) -> Option<Request<'_>>
    ensures { option_map request_meant result ≡ request_of 2 bytes.now }
{
    if bytes.len() != 12 {
        return None;
    }
    Some(Request::Read {
        group: get32(bytes, 0),
        offset: get32(bytes, 4),
        len: get32(bytes, 8),
    })
}

#[tactic(auto, unfolding(spec_formats::specs::Request::request_of, spec_formats::specs::Request::request_in))]
fn write_in(bytes: &[u8]) -> Option<Request<'_>>
    ensures { option_map request_meant result ≡ request_of 3 bytes.now }
{
    let data = data_behind(bytes, 12, 8)?;
    Some(Request::Write {
        group: get32(bytes, 0),
        offset: get32(bytes, 4),
        bytes: data,
    })
}

#[tactic(auto, unfolding(spec_formats::specs::Request::request_of, spec_formats::specs::Request::request_in))]
fn state_in(bytes: &[u8]) -> Option<Request<'_>>
    ensures { option_map request_meant result ≡ request_of 4 bytes.now }
{
    if bytes.len() != 0 {
        return None;
    }
    Some(Request::State)
}

#[tactic(auto, unfolding(spec_formats::specs::Request::request_of, spec_formats::specs::Request::request_in))]
fn control_in(bytes: &[u8]) -> Option<Request<'_>>
    ensures { option_map request_meant result ≡ request_of 5 bytes.now }
{
    let data = data_behind(bytes, 8, 4)?;
    Some(Request::Control {
        ads: get16(bytes, 0),
        device: get16(bytes, 2),
        bytes: data,
    })
}

#[tactic(auto, unfolding(spec_formats::specs::Request::request_of, spec_formats::specs::Request::request_in))]
fn addition_in(bytes: &[u8]) -> Option<Request<'_>>
    ensures { option_map request_meant result ≡ request_of 6 bytes.now }
{
    if bytes.len() != 40 {
        return None;
    }
    Some(Request::Add {
        group: get32(bytes, 0),
        offset: get32(bytes, 4),
        len: get32(bytes, 8),
        mode: get32(bytes, 12),
        delay: get32(bytes, 16),
        cycle: get32(bytes, 20),
    })
}

#[tactic(auto, unfolding(spec_formats::specs::Request::request_of, spec_formats::specs::Request::request_in))]
fn deletion_in(bytes: &[u8]) -> Option<Request<'_>>
    ensures { option_map request_meant result ≡ request_of 7 bytes.now }
{
    if bytes.len() != 4 {
        return None;
    }
    Some(Request::Delete {
        handle: get32(bytes, 0),
    })
}

#[tactic(auto, unfolding(spec_formats::specs::Request::request_of, spec_formats::specs::Request::request_in))]
fn note_in(bytes: &[u8]) -> Option<Request<'_>>
    ensures { option_map request_meant result ≡ request_of 8 bytes.now }
{
    Some(Request::Note(bytes))
}

#[tactic(auto, unfolding(spec_formats::specs::Request::request_of, spec_formats::specs::Request::request_in))]
fn read_write_in(bytes: &[u8]) -> Option<Request<'_>>
    ensures { option_map request_meant result ≡ request_of 9 bytes.now }
{
    let data = data_behind(bytes, 16, 12)?;
    Some(Request::ReadWrite {
        group: get32(bytes, 0),
        offset: get32(bytes, 4),
        read_len: get32(bytes, 8),
        bytes: data,
    })
}
