//! Which sums are refused, before a part is run.

ghost use Rattle.std.specs.Prelude.{◌≡◌, length, IfOk};
ghost use Rattle.sum_commands.specs.Forms.{sum_in, IsAccepted};
ghost use Rattle.sum_commands.specs.SumCommand.{refusal_in, refused_by};

use crate::form::Form;
use crate::heads::{data_len, reply_len};
use return_codes::Code;

// The most parts of a sum.
const MAX_PARTS: u32 = 500;

// The most bytes of a reply.
const MAX_LEN: u64 = 2_000_000;

// The greatest length of the reply to a sum of n parts, or the code that refuses the sum.
#[tactic(auto, unfolding(spec_machine::specs::Sums::sum_refusal))]
pub(crate) fn accepted_len(form: Form, n: u32, read_len: u32, bytes: &[u8]) -> Result<u32, Code>
    ensures code { refused_by result ≡ refusal_in (sum_in form n bytes.now) n (length bytes.now) read_len }
    ensures runs { IfOk result (λ _. IsAccepted (sum_in form n bytes.now) n (length bytes.now) read_len) }
    ensures len { IfOk result (λ len. len ≡ (sum_in form n bytes.now).reply_len) }
{
    if n > MAX_PARTS {
        return Err(Code::C706);
    }
    if bytes.len() < form.heads(n) || data_len(form, n, bytes) != bytes.len() as u64 {
        return Err(Code::C705);
    }
    let reply = reply_len(form, n, bytes);
    if reply > read_len as u64 || reply > MAX_LEN {
        return Err(Code::C705);
    }
    Ok(reply as u32)
}
