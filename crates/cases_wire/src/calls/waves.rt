//! Calls of signals.

use ads_base::{Calls, NoMemory};
use case_sheets::{Answer, Args, Fault};
use signals::{Bank, Ramp, Signal, Square, Table8};
use std::alloc::Global;

// A signal that is to be made.
#[derive(Drop)]
enum Wanted {
    /// The length.
    Ramp(u32),
    /// The low value, the high one, and the half of the period.
    Square(u64, u64, u32),
    /// The values.
    Table(Calls),
}

pub fn make(
    alloc: Global,
    call: &str,
    args: &mut Args<'_>,
    answer: &mut Answer,
) -> Result<(), Fault> {
    match call {
        "bank" => bank(alloc, args, answer),
        _ => Err(Fault::NoCall),
    }
}

// Signals, and then `step` with the number of the one that is stepped, again and again: the values.
fn bank(alloc: Global, args: &mut Args<'_>, answer: &mut Answer) -> Result<(), Fault> {
    let wanted = wanted_signals(alloc, args)?;
    let mut list: Vec<Box<dyn Signal>> = Vec::new(alloc);
    for signal in wanted.as_slice() {
        match signal {
            Wanted::Ramp(len) if *len > 0 => list.push(Box::new(alloc, Ramp::new(*len))?)?,
            Wanted::Square(low, high, half) if *half > 0 => {
                list.push(Box::new(alloc, Square::new(*low, *high, *half))?)?;
            }
            Wanted::Table(values) if values.len() > 0 => {
                let table = Table8::new(alloc, values.as_slice())?;
                list.push(Box::new(alloc, table)?)?;
            }
            _ => args.refuse(),
        }
    }
    if list.len() > 16 {
        return Err(Fault::BadArgument);
    }
    steps(Bank::new(list), args, answer);
    Ok(())
}

fn wanted_signals(alloc: Global, args: &mut Args<'_>) -> Result<Vec<Wanted>, Fault> {
    let mut wanted = Vec::new(alloc);
    for _ in 0..usize::MAX {
        match args.name() {
            "ramp" => wanted.push(Wanted::Ramp(args.u32()))?,
            "square" => wanted.push(Wanted::Square(args.u64(), args.u64(), args.u32()))?,
            "table" => {
                let values = values_of(alloc, args)?;
                wanted.push(Wanted::Table(values))?;
            }
            "step" => break,
            _ => return Err(Fault::BadArgument),
        }
    }
    Ok(wanted)
}

// How many values, and the values.
fn values_of(alloc: Global, args: &mut Args<'_>) -> Result<Calls, NoMemory> {
    let mut values = Calls::new(alloc);
    for _ in 0..args.u8() {
        values.push(alloc, args.u64())?;
    }
    Ok(values)
}

fn steps(mut bank: Bank, args: &mut Args<'_>, answer: &mut Answer) {
    for _ in 0..usize::MAX {
        if !args.has_more() {
            break;
        }
        let n = args.u32();
        if n < bank.count() {
            answer.tell(bank.step(n));
        } else {
            args.refuse();
        }
    }
}
