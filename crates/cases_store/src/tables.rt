//! The tables: what they are about, a title for each case, and under it the case.

use crate::answer::Answer;
use crate::disks::{try_entries, try_memory, try_real, try_unopened};
use crate::fault::Fault;
use crate::keepers::try_map;
use crate::names::Names;
use crate::words::Words;
use std::{env, fs};

/// How many cases came as they are written, and how many otherwise.
#[derive(Clone, Copy, Default)]
pub struct Tally {
    pub good: u64,
    pub other: u64,
}

/// Tries the tables that tables.txt names, in the folder that the first word of the process names, or where it runs. Prints
/// what each case shows, and how it went. Answers how many went otherwise than is written.
pub fn try_all(rt: &HostRuntime) -> Result<u64, Fault> {
    let folder = match env::args(rt)?.nth(1) {
        Some(folder) => folder,
        None => String::from_str(rt.alloc(), ".")?,
    };
    let list = format!(in rt.alloc(); "{folder}/tables.txt")?;
    let list = fs::read_to_string(rt, list.as_str())?;
    let mut tally = Tally::default();
    for name in list.as_str().lines() {
        let path = format!(in rt.alloc(); "{folder}/{name}")?;
        let text = fs::read_to_string(rt, path.as_str())?;
        try_table(rt, text.as_str(), &mut tally)?;
    }
    let (good, other) = (tally.good, tally.other);
    println!(rt; "{good} as written, {other} otherwise")?;
    Ok(other)
}

// A line `# ..` says what the table is about, `NAME is BYTES` names bytes, a line that begins with a blank is the case of
// the title above it.
fn try_table(rt: &HostRuntime, text: &str, tally: &mut Tally) -> Result<(), Fault> {
    let mut names = Names::new(rt.alloc());
    let mut title = "";
    for line in text.lines() {
        if let Some(about) = line.strip_prefix("# ") {
            println!(rt; "{about}")?;
        } else if let Some(case) = line.strip_prefix("    ") {
            try_case(rt, &names, title, case, tally)?;
        } else if let Some((name, word)) = line.split_once(" = ") {
            names.add(name, word)?;
        } else {
            title = line;
        }
    }
    Ok(())
}

fn try_case(
    rt: &HostRuntime,
    names: &Names,
    title: &str,
    case: &str,
    tally: &mut Tally,
) -> Result<(), Fault> {
    let mut words = Words::new(case);
    let mut answer = Answer::new(rt.alloc());
    try_object(rt, names, &mut words, &mut answer)?;
    if !words.takes("=>") {
        println!(rt; "  {title}: can't be read from here: {}", words.rest())?;
        tally.other = tally.other.saturating_add(1);
        return Ok(());
    }
    let came = answer.text()?;
    if came == words.rest() {
        println!(rt; "  {title}")?;
        tally.good = tally.good.saturating_add(1);
    } else {
        println!(rt; "  {title}: NO, this came: {came}")?;
        tally.other = tally.other.saturating_add(1);
    }
    Ok(())
}

// The first word of a case says what is tried.
fn try_object(
    rt: &HostRuntime,
    names: &Names,
    words: &mut Words<'_>,
    answer: &mut Answer,
) -> Result<(), Fault> {
    match words.word() {
        "memory" => try_memory(rt.alloc(), names, words, answer),
        "real" => try_real(rt, names, words, answer),
        "unopened" => try_unopened(rt, answer),
        "entries" => try_entries(names, words, answer),
        "map" => try_map(rt.alloc(), names, words, answer),
        _ => Err(Fault::Off("the first word of a case is none of the objects")),
    }
}
