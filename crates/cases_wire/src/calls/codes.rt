//! Calls of return_codes.

use case_sheets::{Answer, Args, Fault};
use return_codes::Code;
use std::alloc::Global;

pub fn make(
    alloc: Global,
    call: &str,
    args: &mut Args<'_>,
    answer: &mut Answer,
) -> Result<(), Fault> {
    match call {
        "code_of" => match Code::of(args.u32()) {
            Some(code) => show(alloc, code, answer)?,
            None => answer.say("none"),
        },
        _ => return Err(Fault::NoCall),
    }
    Ok(())
}

// How the code is printed, its number and its text.
fn show(alloc: Global, code: Code, answer: &mut Answer) -> Result<(), Fault> {
    let printed = format!(in alloc; "{code}")?;
    answer.quote(printed.as_bytes());
    answer.tell(u64::from(code.number()));
    answer.quote(code.text().as_bytes());
    Ok(())
}
