//! Description rule 9: ports.
ghost use Rattle.std.specs.Prelude.{◌≡◌, ◌&&◌, [], length, map, nat_le, IfOk};
ghost use Rattle.spec_rules.specs.Places.{first_wrong};
ghost use Rattle.spec_rules.specs.PortRules.{wrong_port, is_right_port, image_limit, has_right_sizes, is_between, is_natural};
ghost use Rattle.spec_rules.specs.Described.{sizes_described};
ghost use Rattle.spec_plant.specs.Accepted.{image_size};
ghost use Rattle.description_rules.specs.NextNumber.{IsNextNumber};
ghost use Rattle.description_rules.specs.NextPort.{is_right_alone};
ghost use Rattle.description_table.specs.Views.{port_view};

use crate::names::is_port_name;
use crate::numbers::{is_between, is_natural, natural_of};
use crate::places::lesser;
use crate::seen_numbers::{SeenNumbers, note_number};
use ads_base::NoMemory;
use description_table::WrittenPort;
use std::alloc::Global;

/// Rule 9: each port; there are 1 to 16 (item 16).
#[tactic(auto, unfolding(spec_rules::specs::PortRules::wrong_port))]
pub fn wrong_port(
    alloc: Global,
    schema: i64,
    ports: &[WrittenPort<'_>],
) -> Result<Option<usize>, NoMemory>
    ensures { IfOk result (λ place. place ≡ wrong_port schema (map port_view ports.now)) }
{
    let number = if 0 < ports.len() && ports.len() <= 16 {
        None
    } else {
        Some(16)
    };
    let first = first_wrong_port(alloc, image_limit(schema), ports)?;
    Ok(lesser(first, number))
}

fn image_limit(schema: i64) -> u32
    ensures { result ≡ image_limit schema }
{
    if schema == 2 { 4_194_304 } else { 1_048_576 }
}

fn first_wrong_port(
    alloc: Global,
    limit: u32,
    ports: &[WrittenPort<'_>],
) -> Result<Option<usize>, NoMemory>
    ensures { IfOk result (λ place. place ≡ first_wrong (is_right_port limit) [] (map port_view ports.now)) }
{
    let mut seen = SeenNumbers::new(alloc);
    first_wrong_among(&mut seen, limit, ports)
}

fn first_wrong_among(
    seen: &mut SeenNumbers,
    limit: u32,
    ports: &[WrittenPort<'_>],
) -> Result<Option<usize>, NoMemory>
    requires { seen.old ≡ [] }
    ensures { IfOk result (λ place. place ≡ first_wrong (is_right_port limit) [] (map port_view ports.now)) }
{
    for (i, port) in ports.iter().enumerate() {
        if !is_right_port(seen, limit, port)? {
            return Ok(Some(i));
        }
    }
    Ok(None)
}

fn is_right_port(
    seen: &mut SeenNumbers,
    limit: u32,
    port: &WrittenPort<'_>,
) -> Result<bool, NoMemory>
    ensures { IfOk result (IsNextNumber (is_right_alone limit (port_view port.now)) seen.old seen.new port.now.number) }
{
    let right = is_right_alone(limit, port);
    note_number(seen, right, port.number)
}

// Whether a port is right but for the numbers of those before.
fn is_right_alone(limit: u32, port: &WrittenPort<'_>) -> bool
    ensures { result ≡ is_right_alone limit (port_view port.now) }
{
    is_between(1, 65535, port.number)
        && is_port_name(port.name)
        && is_version(port)
        && has_right_sizes(limit, port)
        && has_right_count(port)
}

fn has_right_count(port: &WrittenPort<'_>) -> bool
    ensures { result ≡ nat_le (length (port_view port.now).symbols) 10000 }
{
    port.symbols.len() <= 10_000
}

fn is_version(port: &WrittenPort<'_>) -> bool
    ensures { result ≡ (is_between 0 255 port.now.major && is_between 0 255 port.now.minor && is_between 0 65535 port.now.build) }
{
    is_between(0, 255, port.major)
        && is_between(0, 255, port.minor)
        && is_between(0, 65535, port.build)
}

fn has_right_sizes(limit: u32, port: &WrittenPort<'_>) -> bool
    ensures { result ≡ has_right_sizes limit (port_view port.now) }
{
    are_natural(port) && image_size(port) <= limit as u128
}

fn are_natural(port: &WrittenPort<'_>) -> bool
    ensures { result ≡ (is_natural port.now.inputs && is_natural port.now.outputs && is_natural port.now.memory && is_natural port.now.process) }
{
    is_natural(port.inputs)
        && is_natural(port.outputs)
        && is_natural(port.memory)
        && is_natural(port.process)
}

fn image_size(port: &WrittenPort<'_>) -> u128
    ensures { result ≡ image_size (sizes_described (port_view port.now)) }
{
    let inputs = natural_of(port.inputs) as u128;
    let outputs = natural_of(port.outputs) as u128;
    let memory = natural_of(port.memory) as u128;
    let process = natural_of(port.process) as u128;
    inputs + outputs + memory + process
}
