//! Calls of sum_commands, over a device of one number.

ghost use Rattle.std.specs.Prelude.{◌≡◌};

use ads_base::{NoMemory, Octets, get32, put32};
use case_sheets::{Answer, Args, Fault};
use return_codes::Code;
use std::alloc::Global;
use sum_commands::{PartService, run_sum};

pub fn make(
    alloc: Global,
    call: &str,
    args: &mut Args<'_>,
    answer: &mut Answer,
) -> Result<(), Fault> {
    match call {
        "run_sum" => run(alloc, args, answer)?,
        "zeros" => zeros(alloc, args, answer)?,
        _ => return Err(Fault::NoCall),
    }
    Ok(())
}

// How a sum ends, the number that it leaves, and the reply behind a byte that stood there before.
fn run(alloc: Global, args: &mut Args<'_>, answer: &mut Answer) -> Result<(), NoMemory> {
    let mut out = Octets::copy_of(alloc, b"!")?;
    let number = ended(alloc, args, &mut out, answer)?;
    answer.name("leaves", u64::from(number));
    answer.say("reply");
    answer.hex(out.as_slice());
    Ok(())
}

// How a sum ends, and how many bytes its reply has, which are all zeros.
fn zeros(alloc: Global, args: &mut Args<'_>, answer: &mut Answer) -> Result<(), NoMemory> {
    let mut out = Octets::new(alloc);
    let _ = ended(alloc, args, &mut out, answer)?;
    answer.tell(out.len() as u64);
    if out.as_slice().iter().any(|b| *b != 0) {
        answer.say("not all zeros");
    }
    Ok(())
}

// NUMBER GROUP PARTS READ_LEN BYTES: how the sum ends, and the number that it leaves.
fn ended(
    alloc: Global,
    args: &mut Args<'_>,
    out: &mut Octets,
    answer: &mut Answer,
) -> Result<u32, NoMemory> {
    let mut register = Register { number: args.u32() };
    let group = args.u32();
    let parts = args.u32();
    let read_len = args.u32();
    let bytes = args.octets();
    if group < 0xF080 || group > 0xF086 {
        args.refuse();
        return Ok(0);
    }
    let sum = bytes.as_slice();
    match run_sum(alloc, &mut register, group, parts, read_len, sum, out)? {
        Ok(()) => answer.say("ok"),
        Err(code) => answer.tell_code(code.number()),
    }
    Ok(register.number)
}

// The number in group 0x4020, which is also the handle that its addition gives. Group 0x4040 is there and has no bytes.
#[derive(Drop)]
struct Register {
    number: u32,
}

impl PartService for Register {
    ghost use Rattle.std.specs.Prelude.{ℕ};
    ghost use Rattle.cases_device.specs.Register.{register_given, register_left};

    ghost State = { ℕ };

    ghost stands_for = { λ r s. s ≡ r.number };

    ghost given = { register_given };

    ghost left = { register_left };

    ghost may_leave = { λ before _ after. after.number ≡ before };

    fn read(
        &mut self,
        alloc: Global,
        group: u32,
        _offset: u32,
        len: u32,
        out: &mut Octets,
    ) -> Result<Result<(), Code>, NoMemory> {
        if group == 0x4040 {
            return Ok(Ok(()));
        }
        if group != 0x4020 {
            return Ok(Err(Code::C702));
        }
        if len < 4 {
            return Ok(Err(Code::C705));
        }
        put32(alloc, out, self.number)?;
        Ok(Ok(()))
    }

    fn write(&mut self, group: u32, _offset: u32, bytes: &[u8]) -> Result<(), Code> {
        if group == 0x4040 {
            return Ok(());
        }
        if group != 0x4020 {
            return Err(Code::C702);
        }
        if bytes.len() != 4 {
            return Err(Code::C705);
        }
        self.number = get32(bytes, 0);
        Ok(())
    }

    fn read_write(
        &mut self,
        alloc: Global,
        group: u32,
        _offset: u32,
        read_len: u32,
        bytes: &[u8],
        out: &mut Octets,
    ) -> Result<Result<(), Code>, NoMemory> {
        if group == 0x4040 {
            return Ok(Ok(()));
        }
        if group != 0x4020 {
            return Ok(Err(Code::C702));
        }
        if bytes.len() != 4 || read_len < 4 {
            return Ok(Err(Code::C705));
        }
        put32(alloc, out, self.number)?;
        self.number = get32(bytes, 0);
        Ok(Ok(()))
    }

    fn add(
        &mut self,
        _alloc: Global,
        group: u32,
        _offset: u32,
        len: u32,
        _mode: u32,
        _delay: u32,
        cycle: u32,
    ) -> Result<Result<u32, Code>, NoMemory> {
        if group != 0x4020 {
            return Ok(Err(Code::C702));
        }
        if len != 4 {
            return Ok(Err(Code::C705));
        }
        let handle = self.number;
        self.number = cycle;
        Ok(Ok(handle))
    }

    fn delete(&mut self, handle: u32) -> Result<(), Code> {
        if handle != self.number {
            return Err(Code::C714);
        }
        self.number = 0;
        Ok(())
    }
}
