//! The two texts of a load.

ghost use Rattle.std.specs.Prelude.{◌≡◌, ◌≤◌, ◌++◌, ◌*◌, ◌+◌, ℕ, map, length, Ok, OnOk, IfOk};
ghost use Rattle.spec_rules.specs.TextVerdict.{text_verdict, Described};
ghost use Rattle.spec_server.specs.Server.{server_script};
ghost use Rattle.table_text.specs.TableText.{document_text};
ghost use Rattle.load_maker.specs.MadeLines.{Opens, script_text, script_said};
ghost use Rattle.load_maker.specs.LoadScript.{clients, load_lines};
ghost use Rattle.load_maker.specs.LoadDescription.{load_table, load_description};

use crate::description::load_table;
use crate::lines::{put_open, put_tick};
use crate::numbers::TICK;
use crate::turns::put_turns;
use crate::watches::put_watches;
use ads_base::{NoMemory, Octets};
use std::alloc::Global;
use table_text::text_of_table;

/// A description and a script over it.
#[derive(Debug, Drop)]
pub struct Load {
    pub description: Octets,
    pub script: Octets,
}

/// The load of `n`: four clients watch ten values each, and then send `n` requests between them.
pub fn make(alloc: Global, n: u32) -> Result<Load, NoMemory>
    requires { n ≤ 100000 }
    ensures description { IfOk result (λ load. load.description ≡ document_text load_table) }
    ensures script { IfOk result (λ load. load.script ≡ script_text (load_lines n)) }
    ensures described { IfOk result (λ load. (signals : ℕ) → text_verdict signals load.description ≡ Described load_description) }
    ensures said { IfOk result (λ load. server_script load.script ≡ Ok (script_said (load_lines n))) }
    ensures short { IfOk result (λ load. length load.script ≤ 16777216) }
{
    let description = load_description(alloc)?;
    let script = load_script(alloc, n)?;
    Ok(Load {
        description,
        script,
    })
}

fn load_description(alloc: Global) -> Result<Octets, NoMemory>
    ensures text { IfOk result (λ text. text ≡ document_text load_table) }
    ensures described { IfOk result (λ text. (signals : ℕ) → text_verdict signals text ≡ Described load_description) }
{
    let table = load_table(alloc)?;
    let text = text_of_table(alloc, &table)?;
    Ok(text)
}

fn load_script(alloc: Global, n: u32) -> Result<Octets, NoMemory>
    requires { n ≤ 100000 }
    ensures { IfOk result (λ script. script ≡ script_text (load_lines n)) }
{
    let mut script = Octets::new(alloc);
    put_openings(alloc, &mut script)?;
    put_watches(alloc, &mut script)?;
    put_turns(alloc, &mut script, n)?;
    let turns = u64::from(n);
    put_tick(alloc, &mut script, TICK * (turns + 1))?;
    Ok(script)
}

// The connections of the four clients.
fn put_openings(alloc: Global, out: &mut Octets) -> Result<(), NoMemory>
    ensures { OnOk result (out.new ≡ out.old ++ script_text (map Opens clients)) }
{
    put_open(alloc, out, 1)?;
    put_open(alloc, out, 2)?;
    put_open(alloc, out, 3)?;
    put_open(alloc, out, 4)?;
    Ok(())
}
