//! The two turns of the story: one keeper records samples, and another goes on with the file.

use crate::PATH;
use crate::calls::{fails_first, has_none, opens, puts, puts_many, settles, totals};
use sample_store::Keeper;
use sqlite_samples::SqliteKeeper;

/// The names of the samples.
const WAVE: &str = "Main.wave";

const COUNT: &str = "Main.count";

/// Which of the two keepers.
pub enum Turn {
    First,
    Second,
}

/// A keeper of its own takes a turn; when it goes, the file is closed. Whether all came as wanted.
pub fn take_turn(rt: &HostRuntime, own: HostRuntime, turn: Turn) -> bool {
    let mut keeper = SqliteKeeper::new(own);
    tell_turn(rt, &mut keeper, turn)
}

fn tell_turn(rt: &HostRuntime, keeper: &mut SqliteKeeper, turn: Turn) -> bool {
    match turn {
        Turn::First => records(rt, keeper),
        Turn::Second => goes_on(rt, keeper),
    }
}

// Samples of two names go into a new file.
fn records(rt: &HostRuntime, keeper: &mut SqliteKeeper) -> bool {
    let unopened = tell(
        rt,
        "a total before a file is opened fails and is counted",
        fails_first(keeper, WAVE),
    );
    let opened = tell(rt, "a new file has no rows", opens(keeper, PATH, 0));
    let nothing = tell(rt, "nothing is there to be settled", settles(keeper));
    let put = tell(
        rt,
        "four rows of two names are put, three of them and then the fourth are settled",
        puts_four(rt, keeper),
    );
    let told = tell(
        rt,
        "each name has its total: how many rows, and the last one",
        totals_of_four(keeper),
    );
    let again = tell(
        rt,
        "number 1 once more, with another name, changes no total",
        puts(rt.alloc(), keeper, 1, COUNT, 900_000, &[9]) && totals_of_four(keeper),
    );
    unopened && opened && nothing && put && told && again
}

// The file as it was left has the rows, and takes more.
fn goes_on(rt: &HostRuntime, keeper: &mut SqliteKeeper) -> bool {
    let opened = tell(
        rt,
        "another keeper opens the file and finds four rows",
        opens(keeper, PATH, 4),
    );
    let told = tell(rt, "it finds both totals", totals_of_four(keeper));
    let falls = tell(
        rt,
        "row 5 has an earlier moment than row 4: the total has that of row 5",
        puts(rt.alloc(), keeper, 5, WAVE, 50, &[5]) && totals(keeper, WAVE, 4, 50, &[5]),
    );
    let ends = tell(
        rt,
        "row 6 has no name, no bytes and the last of all moments",
        puts(rt.alloc(), keeper, 6, "", u64::MAX, &[]) && totals(keeper, "", 1, u64::MAX, &[]),
    );
    let other = tell(
        rt,
        "a name that no row has, has no total",
        has_none(keeper, "Main.other"),
    );
    let burst = tell(
        rt,
        "5,000 rows are put at once: they are there",
        puts_many(rt.alloc(), keeper, 7, 5_000, COUNT)
            && totals(keeper, COUNT, 5_001, 400_000, &5_006u64.to_le_bytes()),
    );
    let reopened = tell(
        rt,
        "one more is put, the file is closed and opened again: 5,007 rows, and no call has failed",
        puts(rt.alloc(), keeper, 5_007, WAVE, 60, &[6])
            && opens(keeper, PATH, 5_007)
            && keeper.faults() == 0,
    );
    opened && told && falls && ends && other && burst && reopened
}

// Rows 1 to 4.
fn puts_four(rt: &HostRuntime, keeper: &mut SqliteKeeper) -> bool {
    puts(rt.alloc(), keeper, 1, WAVE, 100_000, &[3, 0])
        && puts(rt.alloc(), keeper, 2, COUNT, 100_000, &[42, 0, 0, 0])
        && puts(rt.alloc(), keeper, 3, WAVE, 200_000, &[1, 0])
        && settles(keeper)
        && puts(rt.alloc(), keeper, 4, WAVE, 300_000, &[4, 0])
        && settles(keeper)
}

// Whether the totals are those of rows 1 to 4.
fn totals_of_four(keeper: &mut SqliteKeeper) -> bool {
    totals(keeper, WAVE, 3, 300_000, &[4, 0]) && totals(keeper, COUNT, 1, 100_000, &[42, 0, 0, 0])
}

/// Prints what was tried, and whether it came as wanted.
pub fn tell(rt: &HostRuntime, what: &str, holds: bool) -> bool {
    let _ = println!(rt; "{what}: {}", if holds { "yes" } else { "no" });
    holds
}
