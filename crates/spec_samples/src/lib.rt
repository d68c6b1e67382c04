//! Recorded samples: rows after puts and their totals. Definitions in specs/, and their laws as functions with an empty body.
#![tactic(auto)]

ghost use Rattle.spec_samples.specs.Laws.{PutAgainChangesNothing, KeepsFirstPuts, RowsRise, PutsGoOn};
ghost use Rattle.spec_samples.specs.Laws.{RowsAreCounted, NewestIsLast};

/// The rows are the first put of each number, by rising number; so a put of a number that is there changes nothing.
pub fn rows_are_first_puts()
    ensures again { PutAgainChangesNothing }
    ensures first { KeepsFirstPuts }
    ensures rising { RowsRise }
{}

/// Puts after puts are one list of puts.
pub fn puts_go_on()
    ensures { PutsGoOn }
{}

/// Where each put is of a number that is there or of the next one, the numbers go from 1 on, and a new row stands
/// last and is counted in the total of its name.
pub fn rows_are_counted()
    ensures numbers { RowsAreCounted }
    ensures newest { NewestIsLast }
{}
