//! The reply to a request that is refused for its size.

ghost use Rattle.std.specs.Prelude.{◌≡◌, []};
ghost use Rattle.spec_formats.specs.Codes.{invalid_size};
ghost use Rattle.spec_formats.specs.Reply.{written_bytes};
ghost use Rattle.spec_machine.specs.Replies.{reply_payload};
ghost use Rattle.ads_commands.specs.Reply.{IsWritableReply, reply_meant};

use ads_commands::{DeviceFacts, Reply};
use return_codes::Code;

// Parameter size not correct.
const INVALID_SIZE: u32 = Code::C705 as u32;

const NO_FACTS: DeviceFacts = DeviceFacts {
    major: 0,
    minor: 0,
    build: 0,
    name: [0; 16],
};

/// The refused form of the reply to a command.
#[tactic(auto, unfolding(spec_formats::specs::Reply::written_bytes, spec_machine::specs::Replies::reply_in_forms))]
pub(crate) fn refusal_of(command: u16) -> Reply<'static>
    ensures refused { written_bytes (reply_meant result) ≡ reply_payload command (record { code = invalid_size; bytes = [] }) }
    ensures writable { IsWritableReply result }
{
    match command {
        1 => Reply::Info(INVALID_SIZE, NO_FACTS),
        2 => Reply::Read(INVALID_SIZE, &[]),
        4 => Reply::State(INVALID_SIZE, 0, 0),
        5 => Reply::Control(INVALID_SIZE),
        6 => Reply::Add(INVALID_SIZE, 0),
        7 => Reply::Delete(INVALID_SIZE),
        9 => Reply::ReadWrite(INVALID_SIZE, &[]),
        _ => Reply::Write(INVALID_SIZE),
    }
}
