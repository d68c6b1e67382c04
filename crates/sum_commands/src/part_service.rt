//! What runs the parts of a sum.

ghost use Rattle.std.specs.Prelude.{◌≡◌, ◌+◌, ◌≤◌, length, OnOk, OnErr, IfOk, IfSome};
ghost use Rattle.spec_formats.specs.Codes.{no_error};
ghost use Rattle.spec_formats.specs.Request.{Request, Read, Write, ReadWrite};
ghost use Rattle.spec_formats.specs.Request.{AddDeviceNotification, DeleteDeviceNotification};

use ads_base::{NoMemory, Octets};
use return_codes::Code;
use std::alloc::Global;

/// The single commands, which the parts of a sum are. What a part gives and leaves follows from the state before it: this
/// is said of every state that the service stands for, and it stands for one at least.
///
/// After want of memory of `read`, `read_write` or `add` the service is one that `may_leave` has.
/// Beckhoff Information System, "ADS Read", "ADS Write", "ADS ReadWrite", "ADS Add Device Notification", "ADS Delete Device
/// Notification".
pub trait PartService {
    ghost use Rattle.spec_machine.specs.Acts.{Outcome};
    ghost use Rattle.sum_commands.specs.Parts.{Gives, GivesHandle, code_in};
    ghost use Rattle.sum_commands.specs.Served.{StandsForSome};

    // What an answer may hang on.
    ghost State: { Type 0 };

    // The states that it stands for; each part that is run leaves one.
    ghost stands_for: { Self → State → Type 0 };

    // How a part ends in a state, and the state that it leaves.
    ghost given: { State → Request → Outcome };

    ghost left: { State → Request → State };

    // The services that a part may leave where memory is wanting; a fact that always holds promises nothing.
    ghost may_leave: { State → Request → Self → Type 0 };

    /// Appends the bytes read, at most `len`; a refusal appends nothing.
    fn read(
        &mut self,
        alloc: Global,
        group: u32,
        offset: u32,
        len: u32,
        out: &mut Octets,
    ) -> Result<Result<(), Code>, NoMemory>
        requires { StandsForSome stands_for self.old }
        ensures gives { IfOk result (λ answer. (s : State) → stands_for self.old s
            → Gives (given s (Read group offset len)) answer out.old out.new) }
        ensures leaves { OnOk result ((s : State) → stands_for self.old s
            → stands_for self.new (left s (Read group offset len))) }
        ensures wants { OnErr result ((s : State) → stands_for self.old s
            → may_leave s (Read group offset len) self.new) }
        ensures asked { OnOk result (length out.new ≤ length out.old + len) }
        ensures refused { IfOk result (λ answer. OnErr answer (out.new ≡ out.old)) }
        ensures no_memory { OnErr result (out.new ≡ out.old) };

    /// The bytes that a read gives, all that it asks, lent; it leaves all as it was. Or none, and then `read` runs it.
    fn lent(&self, _group: u32, _offset: u32, _len: u32) -> Option<&[u8]>
        requires { StandsForSome stands_for self.now }
        ensures gives { IfSome result (λ bytes. (s : State) → stands_for self.now s
            → given s (Read _group _offset _len) ≡ record { code = no_error; bytes = bytes.now }) }
        ensures leaves { IfSome result (λ _. (s : State) → stands_for self.now s
            → stands_for self.now (left s (Read _group _offset _len))) }
        ensures len { IfSome result (λ bytes. length bytes.now ≡ _len) }
    {
        None
    }

    /// Writes the bytes.
    fn write(&mut self, group: u32, offset: u32, bytes: &[u8]) -> Result<(), Code>
        requires { StandsForSome stands_for self.old }
        ensures code { (s : State) → stands_for self.old s
            → code_in result ≡ (given s (Write group offset bytes.now)).code }
        ensures leaves { (s : State) → stands_for self.old s
            → stands_for self.new (left s (Write group offset bytes.now)) };

    /// Writes the bytes and appends those read, at most `read_len`; a refusal appends nothing.
    fn read_write(
        &mut self,
        alloc: Global,
        group: u32,
        offset: u32,
        read_len: u32,
        bytes: &[u8],
        out: &mut Octets,
    ) -> Result<Result<(), Code>, NoMemory>
        requires { StandsForSome stands_for self.old }
        ensures gives { IfOk result (λ answer. (s : State) → stands_for self.old s
            → Gives (given s (ReadWrite group offset read_len bytes.now)) answer out.old out.new) }
        ensures leaves { OnOk result ((s : State) → stands_for self.old s
            → stands_for self.new (left s (ReadWrite group offset read_len bytes.now))) }
        ensures wants { OnErr result ((s : State) → stands_for self.old s
            → may_leave s (ReadWrite group offset read_len bytes.now) self.new) }
        ensures asked { OnOk result (length out.new ≤ length out.old + read_len) }
        ensures refused { IfOk result (λ answer. OnErr answer (out.new ≡ out.old)) }
        ensures no_memory { OnErr result (out.new ≡ out.old) };

    /// Adds a notification, and gives its handle. The delay is the greatest that the client asks for.
    fn add(
        &mut self,
        alloc: Global,
        group: u32,
        offset: u32,
        len: u32,
        mode: u32,
        delay: u32,
        cycle: u32,
    ) -> Result<Result<u32, Code>, NoMemory>
        requires { StandsForSome stands_for self.old }
        ensures gives { IfOk result (λ answer. (s : State) → stands_for self.old s
            → GivesHandle (given s (AddDeviceNotification group offset len mode delay cycle)) answer) }
        ensures leaves { OnOk result ((s : State) → stands_for self.old s
            → stands_for self.new (left s (AddDeviceNotification group offset len mode delay cycle))) }
        ensures wants { OnErr result ((s : State) → stands_for self.old s
            → may_leave s (AddDeviceNotification group offset len mode delay cycle) self.new) };

    /// Deletes the notification with a handle.
    fn delete(&mut self, handle: u32) -> Result<(), Code>
        requires { StandsForSome stands_for self.old }
        ensures code { (s : State) → stands_for self.old s
            → code_in result ≡ (given s (DeleteDeviceNotification handle)).code }
        ensures leaves { (s : State) → stands_for self.old s
            → stands_for self.new (left s (DeleteDeviceNotification handle)) };
}
