//! The numbers of an answer.

ghost use Rattle.std.specs.Prelude.{◌≡◌};
ghost use Rattle.sum_commands.specs.Parts.{code_in, handle_in};

use return_codes::Code;

/// 0, or the number of the code that refuses.
pub fn number_in(answer: Result<(), Code>) -> u32
    ensures { result ≡ code_in answer }
{
    match answer {
        Ok(()) => 0,
        Err(code) => code.number(),
    }
}

// The handle of an addition, or 0 where it was refused.
pub(crate) fn handle_in(answer: Result<u32, Code>) -> u32
    ensures { result ≡ handle_in answer }
{
    match answer {
        Ok(handle) => handle,
        Err(_) => 0,
    }
}

// 0, or the number of the code that refuses an addition.
pub(crate) fn addition_number_in(answer: Result<u32, Code>) -> u32
    ensures { result ≡ code_in answer }
{
    match answer {
        Ok(_) => 0,
        Err(code) => code.number(),
    }
}
