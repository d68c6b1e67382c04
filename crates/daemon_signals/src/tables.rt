//! The values of tables that name no file.

ghost use Rattle.std.specs.Prelude.{◌≡◌, ◌++◌, ◌∷◌, [], replicate, IfOk};
ghost use Rattle.daemon_signals.specs.Values.{ramp_values, square_values};

use ads_base::{ListOf, NoMemory};
use std::alloc::Global;

/// 0, the step, twice the step, .., as many as the period.
pub(crate) fn ramp_values(alloc: Global, step: u32, period: u32) -> Result<ListOf<u64>, NoMemory>
    ensures { IfOk result (λ values. values ≡ ramp_values step period) }
{
    let mut values = ListOf::new(alloc);
    for n in 0..period {
        values.push(alloc, u64::from(step) * u64::from(n))?;
    }
    Ok(values)
}

/// One value and then another, each as often as there are ticks.
pub(crate) fn square_values(
    alloc: Global,
    low: u64,
    high: u64,
    ticks: u32,
) -> Result<ListOf<u64>, NoMemory>
    ensures { IfOk result (λ values. values ≡ square_values low high ticks) }
{
    let mut values = Vec::from_elem(alloc, low, ticks as usize)?;
    let second = Vec::from_elem(alloc, high, ticks as usize)?;
    values.extend_from_slice(second.as_slice())?;
    Ok(ListOf::from_vec(values))
}

/// A copy of a list.
pub(crate) fn copy_of(alloc: Global, values: &[u64]) -> Result<ListOf<u64>, NoMemory>
    ensures { IfOk result (λ copy. copy ≡ values.now) }
{
    let values = values.to_vec(alloc)?;
    Ok(ListOf::from_vec(values))
}
