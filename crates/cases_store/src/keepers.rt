//! Calls of a keeper of samples.

ghost use Rattle.std.specs.Prelude.{◌≤◌};

use crate::answer::Answer;
use crate::fault::Fault;
use crate::names::Names;
use crate::words::Words;
use ads_base::Calls;
use sample_store::{Keeper, KeeperOpen, Kept, MapKeeper, Row, Total, Totalled};
use std::alloc::Global;

/// The file of a keeper, where the program runs.
const PATH: &str = "samples.tmp";

/// Calls of a keeper in memory.
pub fn try_map(
    alloc: Global,
    names: &Names,
    words: &mut Words<'_>,
    answer: &mut Answer,
) -> Result<(), Fault> {
    let mut fails = Calls::new(alloc);
    for _ in 0..u64::MAX {
        if !words.takes("fails") {
            break;
        }
        fails.push(alloc, words.number()?)?;
    }
    let mut keeper = MapKeeper::new(alloc, fails);
    for _ in 0..u64::MAX {
        if words.takes("row") {
            tell_row(keeper.row(words.number()?), answer);
        } else if !try_call(&mut keeper, names, words, answer)? {
            break;
        }
    }
    Ok(())
}

// A call of a keeper, and whether the next word is one.
fn try_call<K: Keeper>(
    keeper: &mut K,
    names: &Names,
    words: &mut Words<'_>,
    answer: &mut Answer,
) -> Result<bool, Fault> {
    if words.takes("open") {
        tell_opened(keeper.open(PATH), answer);
    } else if words.takes("put") {
        let row = next_row(names, words)?;
        answer.say(put(keeper, &row)?);
    } else if words.takes("total") {
        let name = names.octets(words.word())?;
        tell_total(keeper.total(name.as_slice()), answer);
    } else {
        return Ok(false);
    }
    Ok(true)
}

// A row: its number, name, moment and bytes.
fn next_row(names: &Names, words: &mut Words<'_>) -> Result<Row, Fault> {
    let number = words.number()?;
    let name = names.octets(words.word())?;
    let time = words.number()?;
    let bytes = names.octets(words.word())?;
    Ok(Row {
        number,
        name,
        time,
        bytes,
    })
}

// Opens the table, which tells how many rows there are, and puts a row that is one of these or the next one.
fn put<K: Keeper>(keeper: &mut K, row: &Row) -> Result<&'static str, Fault> {
    let KeeperOpen::Ready(rows) = keeper.open(PATH) else {
        return Ok("unopened");
    };
    if row.number == 0 || row.number - 1 > rows || row.number >= 1 << 63 {
        return Err(Fault::Off("a row that is not the next one"));
    }
    match keeper.put(row) {
        Kept::Done => Ok("done"),
        Kept::Failed => Ok("failed"),
        Kept::Memory => Ok("memory"),
    }
}

fn tell_opened(open: KeeperOpen, answer: &mut Answer) {
    match open {
        KeeperOpen::Ready(rows) => answer.tell(rows),
        KeeperOpen::Failed => answer.say("unopened"),
        KeeperOpen::Memory => answer.say("memory"),
    }
}

fn tell_row(row: Option<&Row>, answer: &mut Answer) {
    match row {
        None => answer.say("none"),
        Some(row) => {
            answer.bytes(row.name.as_slice());
            answer.tell(row.time);
            answer.bytes(row.bytes.as_slice());
        }
    }
}

fn tell_total(total: Totalled, answer: &mut Answer) {
    match total {
        Totalled::Found(total) => tell_found(&total, answer),
        Totalled::Nothing => answer.say("nothing"),
        Totalled::Failed => answer.say("failed"),
        Totalled::Memory => answer.say("memory"),
    }
}

fn tell_found(total: &Total, answer: &mut Answer) {
    answer.tell(total.count);
    answer.tell(total.time);
    answer.bytes(total.bytes.as_slice());
}
