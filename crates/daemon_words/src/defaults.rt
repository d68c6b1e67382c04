//! What a daemon does where nothing is said.

ghost use Rattle.std.specs.Prelude.{◌≡◌, ◌<◌, length, IfOk};

use crate::signal_table::{RampTable, SignalTable, SquareTable, ValueList};
use ads_base::{ListOf, NoMemory};
use std::alloc::Global;

/// Where it listens.
pub(crate) const DEFAULT_LISTEN: &str = "127.0.0.1:48898";

/// The values of the third signal of `ads serve`.
const TABLE: [u64; 8] = [3, 1, 4, 1, 5, 9, 2, 6];

/// The signals of `ads serve`: a ramp of 1,000 values, a square of ten 0 and ten 1, and eight values.
pub(crate) fn signals_of_serve(alloc: Global) -> Result<ListOf<SignalTable>, NoMemory>
    ensures { IfOk result (λ list. length list ≡ 3) }
{
    let ramp = SignalTable::Ramp(RampTable {
        step: 1,
        period: 1_000,
    });
    let square = SignalTable::Square(SquareTable {
        low: 0,
        high: 1,
        ticks: 10,
    });
    let table = SignalTable::Values(table_of_serve(alloc)?);
    let mut signals = ListOf::new(alloc);
    signals.push(alloc, ramp)?;
    signals.push(alloc, square)?;
    signals.push(alloc, table)?;
    Ok(signals)
}

fn table_of_serve(alloc: Global) -> Result<ValueList, NoMemory> {
    let values = TABLE.to_vec(alloc)?;
    Ok(ValueList {
        values: ListOf::from_vec(values),
    })
}
