//! The lines of a recording that is done.

ghost use Rattle.std.specs.Prelude.{◌≡◌, ◌≤◌, IfOk};
ghost use Rattle.spec_client.specs.Stages.{entries_taken};
ghost use Rattle.client_loop.specs.Lines.{AfterLine, AfterTotals};

use ads_base::{NoMemory, Octets};
use client_calls::Runner;
use client_replies::put_total_line;
use sample_store::{Keeper, Totalled};
use std::alloc::Global;

/// The lines of all entries; nothing, where the keeper failed.
pub(crate) fn total_lines<K: Keeper>(
    alloc: Global,
    runner: &Runner,
    keeper: &mut K,
) -> Result<Option<Octets>, NoMemory>
    ensures lines { AfterTotals result (entries_taken runner.now.stage) (K.state keeper.old) (K.state keeper.new) }
    ensures rows { (K.state keeper.new).rows ≡ (K.state keeper.old).rows }
    ensures names { (K.state keeper.new).names ≡ (K.state keeper.old).names }
    ensures keeper_later { (K.state keeper.old).faults ≤ (K.state keeper.new).faults }
{
    let mut text = Octets::new(alloc);
    for n in 0..usize::MAX {
        match runner.entry(n) {
            Some((name, type_id)) => match put_line(alloc, &mut text, keeper, name, type_id) {
                Ok(true) => {}
                Ok(false) => return Ok(None),
                Err(e) => return Err(e),
            },
            None => return Ok(Some(text)),
        }
    }
    Err(NoMemory)
}

// The line of a name and a type id; false, where the keeper failed.
fn put_line<K: Keeper>(
    alloc: Global,
    text: &mut Octets,
    keeper: &mut K,
    name: &[u8],
    type_id: u32,
) -> Result<bool, NoMemory>
    ensures line { AfterLine result name.now type_id text.old text.new (K.state keeper.old) (K.state keeper.new) }
    ensures rows { (K.state keeper.new).rows ≡ (K.state keeper.old).rows }
    ensures names { (K.state keeper.new).names ≡ (K.state keeper.old).names }
    ensures keeper_later { (K.state keeper.old).faults ≤ (K.state keeper.new).faults }
{
    match keeper.total(name) {
        Totalled::Found(total) => {
            let total = Some(total);
            put_total_line(alloc, text, name, type_id, &total)?;
            Ok(true)
        }
        Totalled::Nothing => {
            put_total_line(alloc, text, name, type_id, &None)?;
            Ok(true)
        }
        Totalled::Failed => Ok(false),
        Totalled::Memory => Err(NoMemory),
    }
}
