//! The call that a client's words ask for.

ghost use Rattle.std.specs.Prelude.{◌≡◌, IfOk, if◌then◌else◌};
ghost use Rattle.spec_client.specs.Calls.{SERVER_CYCLE, SERVER_ON_CHANGE};
ghost use Rattle.client_replies.specs.Sound.{HasShortTexts};
ghost use Rattle.client_replies.specs.Stages.{call_meant, mode_meant};
ghost use Rattle.run_tasks.specs.Asking.{call_asked};
ghost use Rattle.run_tasks.specs.Fits.{FitsClientTask};

use ads_base::{NoMemory, Octets};
use cli_words::Text;
use client_loop::{Call, Mode2};
use run_tasks::ClientTask;
use std::alloc::Global;

/// The call, with copies of its texts.
pub fn call_of(alloc: Global, what: &ClientTask) -> Result<Call, NoMemory>
    requires { FitsClientTask what.now }
    ensures meant { IfOk result (λ call. call_meant call ≡ call_asked what.now) }
    ensures short { IfOk result (λ call. HasShortTexts (call_meant call)) }
{
    match what {
        ClientTask::Info => Ok(Call::Info),
        ClientTask::State => Ok(Call::State),
        ClientTask::List => Ok(Call::List),
        ClientTask::Control { ads, device } => Ok(Call::Control(*ads as u16, *device as u16)),
        ClientTask::Get { name } => {
            let name = bytes_of(alloc, name)?;
            Ok(Call::Get(name))
        }
        ClientTask::Show { name } => {
            let name = bytes_of(alloc, name)?;
            Ok(Call::Show(name))
        }
        ClientTask::Set { name, value } => {
            let name = bytes_of(alloc, name)?;
            let value = bytes_of(alloc, value)?;
            Ok(Call::Set(name, value))
        }
        ClientTask::Watch {
            name,
            change,
            cycle,
            count,
        } => {
            let name = bytes_of(alloc, name)?;
            Ok(Call::Watch {
                name,
                mode: mode_of(*change),
                cycle: *cycle as u32,
                count: *count as u32,
            })
        }
    }
}

/// A copy of a text.
pub fn bytes_of(alloc: Global, text: &Text) -> Result<Octets, NoMemory>
    ensures { IfOk result (λ bytes. bytes ≡ text.now) }
{
    let bytes = Octets::copy_of(alloc, text.as_str().as_bytes())?;
    Ok(bytes)
}

/// When samples are sent.
pub fn mode_of(change: bool) -> Mode2
    ensures { mode_meant result ≡ (if change then SERVER_ON_CHANGE else SERVER_CYCLE) }
{
    if change { Mode2::Change } else { Mode2::Cycle }
}
