//! Names of symbols in order, which a path is looked for in by halving.

ghost use Rattle.std.specs.Prelude.{◌≡◌, ◌+◌, ◌-◌, ◌*◌, ◌^◌, ◌<◌, ◌≤◌, ◌∷◌, [], length, map, IfSome, IfNone, MatchOption, IfOk};
ghost use Rattle.std.specs.Ordering.{nat_cmp};
ghost use Rattle.std.specs.Cmp.Lexicographic.{slice_cmp};
ghost use Rattle.name_paths.specs.Identifier.{lower};
ghost use Rattle.name_paths.specs.Path.{first_names};
ghost use Rattle.name_paths.specs.Name.{lower_identifiers};
ghost use Rattle.symbol_table.specs.Rows.{symbols_of_rows};
ghost use Rattle.symbol_table.specs.NamesInOrder.{keys_from, AreKeysOf};
ghost use Rattle.symbol_table.specs.NameKeys.{identifiers_in, key_of, order_to_path, IsPrefixFree, IsMatch, HasNoMatch};

use crate::row::SymbolRow;
use ads_base::{NoMemory, Steps};
use name_index::lower_copy;
use name_paths::{LaterSteps, Path, Step};
use std::alloc::Global;
use std::cmp::Ordering;
use std::marker::Model;
use std::sync::ledger::Ledger;

/// The identifiers of each symbol's name in lower case, in order, with the symbol's number.
#[derive(Drop)]
pub struct NameOrder {
    entries: Vec<(Vec<Vec<u8>>, u32)>,
}

impl Model for NameOrder {
    ghost use Rattle.std.specs.Prelude.{List, map};
    ghost use Rattle.symbol_table.specs.NameKeys.{NameKey, key_of, IsRising};

    ghost Value = { List NameKey };

    ghost view = { λ o. map key_of o.entries.items };

    ghost invariant = { λ o. IsRising (map key_of o.entries.items) };
}

impl NameOrder {
    /// The names of these symbols.
    pub fn build(alloc: Global, rows: &[SymbolRow]) -> Result<NameOrder, NoMemory>
        requires { length rows.now < 2 ^ 32 }
        ensures { IfOk result (AreKeysOf (symbols_of_rows rows.now)) }
    {
        let mut entries = entries_of(alloc, rows)?;
        entries.sort()?;
        Ok(NameOrder { entries })
    }

    /// The number of the symbol whose name the path begins with, and the number of the name's identifiers.
    pub fn search<L: Ledger>(&self, path: &Path<'_>, steps: &mut Steps<L>) -> Option<(u32, usize)>
        requires { IsPrefixFree self.now }
        ensures found { IfSome result (IsMatch self.now (map lower (first_names path.now))) }
        ensures none { IfNone result (HasNoMatch self.now (map lower (first_names path.now))) }
        ensures steps_rise { steps.old ≤ steps.new }
        ensures some_step { 0 < length self.now → steps.old < steps.new }
        ensures few_steps { 2 ^ (steps.new - steps.old) ≤ 2 * (length self.now + 1) }
    {
        let mut low = 0;
        let mut high = self.entries.len();
        while low < high {
            let middle = low + (high - low) / 2;
            let (identifiers, symbol) = &self.entries[middle];
            match compare(identifiers.as_slice(), path, steps) {
                Ordering::Less => low = middle + 1,
                Ordering::Greater => high = middle,
                Ordering::Equal => return Some((*symbol, identifiers.len())),
            }
        }
        None
    }
}

// The identifiers of each symbol's name, in the order of the symbols.
fn entries_of(alloc: Global, rows: &[SymbolRow]) -> Result<Vec<(Vec<Vec<u8>>, u32)>, NoMemory>
    requires { length rows.now < 2 ^ 32 }
    ensures { IfOk result (λ entries. map key_of entries.items
        ≡ keys_from 0 (symbols_of_rows rows.now)) }
{
    let mut entries = Vec::new(alloc);
    for (number, row) in rows.iter().enumerate() {
        let identifiers = identifiers_of(alloc, row.name.as_slice())?;
        entries.push((identifiers, number as u32))?;
    }
    Ok(entries)
}

// The identifiers of a name, in lower case.
fn identifiers_of(alloc: Global, name: &[u8]) -> Result<Vec<Vec<u8>>, NoMemory>
    ensures { IfOk result (λ identifiers. identifiers_in identifiers.items
        ≡ lower_identifiers name.now) }
{
    let mut identifiers = Vec::new(alloc);
    for part in name.split(|c| *c == b'.') {
        let low = lower_copy(alloc, part)?;
        identifiers.push(low)?;
    }
    Ok(identifiers)
}

// How a name stands to a path, which is one step.
fn compare<L: Ledger>(identifiers: &[Vec<u8>], path: &Path<'_>, steps: &mut Steps<L>) -> Ordering
    ensures order { result
        ≡ order_to_path (identifiers_in identifiers.now) (map lower (first_names path.now)) }
    ensures step { steps.new ≡ steps.old + 1 }
{
    steps.tick();
    let (first, later) = path.first();
    match identifiers {
        [] => Ordering::Equal,
        [identifier, others @ ..] => match compare_text(identifier.as_slice(), first) {
            Ordering::Equal => compare_later(others, &later),
            Ordering::Less => Ordering::Less,
            Ordering::Greater => Ordering::Greater,
        },
    }
}

// How the identifiers behind a name's first stand to the steps behind a path's first.
fn compare_later(identifiers: &[Vec<u8>], later: &LaterSteps<'_>) -> Ordering
    ensures { result
        ≡ order_to_path (identifiers_in identifiers.now) (map lower (first_names later.now)) }
{
    match identifiers {
        [] => Ordering::Equal,
        [identifier, others @ ..] => match next_name(later) {
            None => Ordering::Greater,
            Some((name, rest)) => match compare_text(identifier.as_slice(), name) {
                Ordering::Equal => compare_later(others, &rest),
                Ordering::Less => Ordering::Less,
                Ordering::Greater => Ordering::Greater,
            },
        },
    }
}

// The next step where it is a name, and the steps behind it.
fn next_name<'a>(later: &LaterSteps<'a>) -> Option<(&'a [u8], LaterSteps<'a>)>
    ensures { MatchOption result (first_names later.now ≡ [])
        (λ (name, rest). first_names later.now ≡ name.now ∷ first_names rest) }
{
    match later.next() {
        None => None,
        Some((step, rest)) => match step {
            Step::Name(name) => Some((name, rest)),
            Step::Index(_) => None,
        },
    }
}

// How a text in lower case stands to one in any case.
fn compare_text(low: &[u8], text: &[u8]) -> Ordering
    ensures { result ≡ slice_cmp nat_cmp low.now (lower text.now) }
{
    match low {
        [] => {
            if text.is_empty() {
                Ordering::Equal
            } else {
                Ordering::Less
            }
        }
        [first, others @ ..] => match text {
            [] => Ordering::Greater,
            [c, cs @ ..] => match first.cmp(&c.to_ascii_lowercase()) {
                Ordering::Equal => compare_text(others, cs),
                Ordering::Less => Ordering::Less,
                Ordering::Greater => Ordering::Greater,
            },
        },
    }
}
