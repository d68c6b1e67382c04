//! The signals of a configuration, made.

ghost use Rattle.std.specs.Prelude.{◌≡◌, ◌∷◌, [], ◌++◌, map, IfOk};
ghost use Rattle.daemon_signals.specs.Values.{ArePlayed, IsPlayed};

use crate::making::{played_file, played_ramp, played_recording, played_square, played_values};
use crate::{Played, Recordings, SourceFault, Trouble};
use ads_base::{ListOf, NoMemory};
use ads_outside::Files;
use daemon_words::SignalTable;
use signals::Signal;
use std::alloc::Global;

/// The signals of tables, one each, in their order; the first that can't be made is told. Files are read by `files`, and
/// recordings by `recordings`.
pub fn read_sources<F: Files, R: Recordings>(
    alloc: Global,
    tables: &[SignalTable],
    files: &mut F,
    recordings: &mut R,
) -> Result<ListOf<Played>, SourceFault>
    ensures played { IfOk result (λ list. ArePlayed tables.now (map ⟦<Played as Signal>⟧.wave list)) }
    ensures held { (F.state files.new).held ≡ (F.state files.old).held }
{
    let mut list = ListOf::new(alloc);
    let mut number = 0u32;
    for table in tables {
        match played_of(alloc, table, files, recordings) {
            Ok(played) => put(alloc, &mut list, played, number)?,
            Err(trouble) => {
                return Err(SourceFault {
                    signal: number,
                    trouble,
                });
            }
        }
        number = number.saturating_add(1);
    }
    Ok(list)
}

fn put(
    alloc: Global,
    list: &mut ListOf<Played>,
    played: Played,
    number: u32,
) -> Result<(), SourceFault>
    ensures { IfOk result (λ _. list.new ≡ list.old ++ played ∷ []) }
{
    match list.push(alloc, played) {
        Ok(()) => Ok(()),
        Err(NoMemory) => Err(SourceFault {
            signal: number,
            trouble: Trouble::Memory,
        }),
    }
}

fn played_of<F: Files, R: Recordings>(
    alloc: Global,
    table: &SignalTable,
    files: &mut F,
    recordings: &mut R,
) -> Result<Played, Trouble>
    ensures played { IfOk result (λ p. IsPlayed table.now (⟦<Played as Signal>⟧.wave p)) }
    ensures held { (F.state files.new).held ≡ (F.state files.old).held }
{
    match table {
        SignalTable::Ramp(ramp) => played_ramp(alloc, ramp),
        SignalTable::Square(square) => played_square(alloc, square),
        SignalTable::Values(list) => played_values(alloc, list),
        SignalTable::File(name) => played_file(alloc, name, files),
        SignalTable::Recording(recording) => played_recording(recording, recordings),
    }
}
