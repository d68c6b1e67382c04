//! Replies are read.

ghost use Rattle.std.specs.Prelude.{◌≡◌, ℕ, ◌<◌, ◌≤◌, ◌↔◌, length, drop, IsNone, IfSome, option_map};
ghost use Rattle.spec_formats.specs.Reply.{IsReplyPayload, reply_of, facts_at};
ghost use Rattle.ads_commands.specs.Reply.{IsNoReply, facts_meant, reply_meant};

use crate::lengths::data_behind;
use crate::{DeviceFacts, Reply};
use ads_base::{get16, get32};

/// The reply that a payload of this command is, whatever its result. `None` for command 8, which has no reply, for 0 and
/// for numbers above 9.
pub fn read_reply(command: u16, bytes: &[u8]) -> Option<Reply<'_>>
    ensures text { IfSome result (λ r. IsReplyPayload command bytes.now (reply_meant r)) }
    ensures none { IsNone result ↔ IsNoReply command bytes.now }
    ensures read { option_map reply_meant result ≡ reply_of command bytes.now }
{
    reply_in(command, bytes)
}

// The table of commands.
fn reply_in(command: u16, bytes: &[u8]) -> Option<Reply<'_>>
    ensures { option_map reply_meant result ≡ reply_of command bytes.now }
{
    match command {
        1 => info_in(bytes),
        2 => read_in(bytes),
        3 => write_in(bytes),
        4 => state_in(bytes),
        5 => control_in(bytes),
        6 => addition_in(bytes),
        7 => deletion_in(bytes),
        9 => read_write_in(bytes),
        _ => None,
    }
}

#[tactic(auto, unfolding(spec_formats::specs::Reply::reply_of, spec_formats::specs::Reply::reply_in))]
fn info_in(bytes: &[u8]) -> Option<Reply<'_>>
    ensures { option_map reply_meant result ≡ reply_of 1 bytes.now }
{
    if bytes.len() != 24 {
        return None;
    }
    Some(Reply::Info(get32(bytes, 0), facts_in(bytes)))
}

// What stands behind the result of ReadDeviceInfo.
fn facts_in(bytes: &[u8]) -> DeviceFacts
    requires { length bytes.now ≡ 24 }
    ensures { facts_meant result ≡ facts_at 4 bytes.now }
{
    let mut name = [0; 16];
    name.copy_from_slice(&bytes[8..]);
    DeviceFacts {
        major: bytes[4],
        minor: bytes[5],
        build: get16(bytes, 6),
        name,
    }
}

#[tactic(auto, unfolding(spec_formats::specs::Reply::reply_of, spec_formats::specs::Reply::reply_in))]
fn read_in(bytes: &[u8]) -> Option<Reply<'_>>
    ensures { option_map reply_meant result ≡ reply_of 2 bytes.now }
{
    let data = data_behind(bytes, 8, 4)?;
    Some(Reply::Read(get32(bytes, 0), data))
}

#[tactic(auto, unfolding(spec_formats::specs::Reply::reply_of, spec_formats::specs::Reply::reply_in))]
fn write_in(bytes: &[u8]) -> Option<Reply<'_>>
    ensures { option_map reply_meant result ≡ reply_of 3 bytes.now }
{
    if bytes.len() != 4 {
        return None;
    }
    Some(Reply::Write(get32(bytes, 0)))
}

#[tactic(auto, unfolding(spec_formats::specs::Reply::reply_of, spec_formats::specs::Reply::reply_in))]
fn state_in(bytes: &[u8]) -> Option<Reply<'_>>
    ensures { option_map reply_meant result ≡ reply_of 4 bytes.now }
{
    if bytes.len() != 8 {
        return None;
    }
    Some(Reply::State(get32(bytes, 0), get16(bytes, 4), get16(bytes, 6)))
}

#[tactic(auto, unfolding(spec_formats::specs::Reply::reply_of, spec_formats::specs::Reply::reply_in))]
fn control_in(bytes: &[u8]) -> Option<Reply<'_>>
    ensures { option_map reply_meant result ≡ reply_of 5 bytes.now }
{
    if bytes.len() != 4 {
        return None;
    }
    Some(Reply::Control(get32(bytes, 0)))
}

#[tactic(auto, unfolding(spec_formats::specs::Reply::reply_of, spec_formats::specs::Reply::reply_in))]
fn addition_in(bytes: &[u8]) -> Option<Reply<'_>>
    ensures { option_map reply_meant result ≡ reply_of 6 bytes.now }
{
    if bytes.len() != 8 {
        return None;
    }
    Some(Reply::Add(get32(bytes, 0), get32(bytes, 4)))
}

#[tactic(auto, unfolding(spec_formats::specs::Reply::reply_of, spec_formats::specs::Reply::reply_in))]
fn deletion_in(bytes: &[u8]) -> Option<Reply<'_>>
    ensures { option_map reply_meant result ≡ reply_of 7 bytes.now }
{
    if bytes.len() != 4 {
        return None;
    }
    Some(Reply::Delete(get32(bytes, 0)))
}

#[tactic(auto, unfolding(spec_formats::specs::Reply::reply_of, spec_formats::specs::Reply::reply_in))]
fn read_write_in(bytes: &[u8]) -> Option<Reply<'_>>
    ensures { option_map reply_meant result ≡ reply_of 9 bytes.now }
{
    let data = data_behind(bytes, 8, 4)?;
    Some(Reply::ReadWrite(get32(bytes, 0), data))
}
