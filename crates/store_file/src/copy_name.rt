//! The names of a store's copies, and which of them go.

ghost use Rattle.std.specs.Prelude.{◌≡◌, ◌≤◌, length, take, drop, filter, option_map, true};
ghost use Rattle.std.specs.List.{list_all};
ghost use Rattle.store_file.specs.CopyNames.{behind_front, count_of, is_count, is_digit, is_end, is_moment, number_behind, rank_in, rank_of, rank_of_parts};
ghost use Rattle.store_file.specs.Ranks.{is_later, is_same, goes, later_than};

use daemon_log::date_of;
use std::alloc::{AllocError, Global};

/// How many copies are kept.
pub(crate) const MOST_COPIES: usize = 20;

/// Which copy it is: its moment as one number, YYYYMMDDHHMMSS, and its number among those of this second, from 1.
#[derive(Clone, Copy, Debug)]
pub struct Rank {
    pub moment: u64,
    pub count: u64,
}

impl Rank {
    // Whether it is later than another.
    fn is_later(self, other: Rank) -> bool
        ensures { result ≡ is_later self other }
    {
        other.moment < self.moment || (other.moment == self.moment && other.count < self.count)
    }

    fn is(self, other: Rank) -> bool
        ensures { result ≡ is_same self other }
    {
        self.moment == other.moment && self.count == other.count
    }
}

/// Whether a copy goes, of these that are there, behind the one that was just made: at least 19 others are later.
pub fn goes(rank: Rank, there: &[Rank], made: Rank) -> bool
    ensures { result ≡ goes there.now made rank }
{
    !rank.is(made) && later_than(rank, there, made) >= MOST_COPIES - 1
}

// How many are later, but for the one that was just made.
fn later_than(rank: Rank, there: &[Rank], made: Rank) -> usize
    ensures { result ≡ length (filter (later_than made rank) there.now) }
{
    let mut count = 0;
    for one in there {
        if one.is_later(rank) && !one.is(made) {
            count += 1;
        }
    }
    count
}

/// The rank of a copy by its file's name; None where the name is no copy's of the store with this file's name.
pub fn rank_of(store: &str, name: &str) -> Option<Rank>
    ensures { result ≡ rank_of store.now name.now }
{
    let behind = behind_front(name.as_bytes(), store.as_bytes())?;
    let text = behind_front(behind, b".before-")?;
    rank_in(text)
}

// What stands behind a front.
fn behind_front<'a>(text: &'a [u8], front: &[u8]) -> Option<&'a [u8]>
    ensures { option_map (λ b. b.now) result ≡ behind_front front.now text.now }
{
    if front.len() <= text.len() && &text[..front.len()] == front {
        Some(&text[front.len()..])
    } else {
        None
    }
}

// The rank that a text behind the store's name tells.
fn rank_in(text: &[u8]) -> Option<Rank>
    ensures { result ≡ rank_in text.now }
{
    if text.len() < 15 {
        return None;
    }
    rank_of_parts(&text[..15], &text[15..])
}

// The rank that a moment and what stands behind it tell.
#[tactic(auto, unfolding(crate::specs::CopyNames::rank_of_parts))]
fn rank_of_parts(moment: &[u8], end: &[u8]) -> Option<Rank>
    ensures { result ≡ rank_of_parts moment.now end.now }
{
    if !is_moment(moment) || !is_end(end) {
        return None;
    }
    Some(Rank {
        moment: moment_of(moment),
        count: count_of(end),
    })
}

// The digits of a moment as one number.
fn moment_of(moment: &[u8]) -> u64
    requires { 9 ≤ length moment.now }
    ensures { result ≡ number_behind (number_behind 0 (take 8 moment.now)) (drop 9 moment.now) }
{
    number_behind(number_behind(0, &moment[..8]), &moment[9..])
}

// Whether a text is YYYYMMDDTHHMMSS.
fn is_moment(text: &[u8]) -> bool
    ensures moment { result ≡ is_moment text.now }
    ensures length { result ≡ true → 9 ≤ length text.now }
{
    text.len() == 15 && are_digits(&text[..8]) && text[8] == b'T' && are_digits(&text[9..])
}

// Whether it may stand behind a moment.
fn is_end(text: &[u8]) -> bool
    ensures { result ≡ is_end text.now }
{
    text.is_empty() || is_count(text)
}

fn is_count(text: &[u8]) -> bool
    ensures { result ≡ is_count text.now }
{
    if text.len() < 2 || 5 < text.len() {
        return false;
    }
    text[0] == b'-'
        && text[1] != b'0'
        && are_digits(&text[1..])
        && 2 <= number_behind(0, &text[1..])
}

fn count_of(text: &[u8]) -> u64
    ensures { result ≡ count_of text.now }
{
    if text.is_empty() {
        1
    } else {
        number_behind(0, &text[1..])
    }
}

fn are_digits(text: &[u8]) -> bool
    ensures { result ≡ list_all is_digit text.now }
{
    for byte in text {
        if *byte < 48 || 57 < *byte {
            return false;
        }
    }
    true
}

// The number that digits write behind a number.
fn number_behind(number: u64, digits: &[u8]) -> u64
    ensures { result ≡ number_behind number digits.now }
{
    let mut all = number;
    for digit in digits {
        all = all
            .saturating_mul(10)
            .saturating_add(u64::from(*digit).saturating_sub(48));
    }
    all
}

/// A copy's name: that of the store's file, what the copy is, a moment in 100 ns since 1601, and its number in this second.
pub(crate) fn copy_name(
    alloc: Global,
    store: &str,
    what: &str,
    moment: u64,
    count: u64,
) -> Result<String, AllocError> {
    let date = date_of(moment);
    let (year, month, day) = (date.year, date.month, date.day);
    let (hour, minute, second) = (date.hour, date.minute, date.second);
    if count < 2 {
        return format!(in alloc;
            "{store}.{what}-{year:04}{month:02}{day:02}T{hour:02}{minute:02}{second:02}"
        );
    }
    format!(in alloc;
        "{store}.{what}-{year:04}{month:02}{day:02}T{hour:02}{minute:02}{second:02}-{count}"
    )
}

/// The rank of a copy with such a name.
pub(crate) fn rank_at(moment: u64, count: u64) -> Rank {
    let date = date_of(moment);
    let day = behind(behind(date.year, date.month), date.day);
    let time = behind(behind(date.hour, date.minute), date.second);
    Rank {
        moment: day.saturating_mul(1_000_000).saturating_add(time),
        count,
    }
}

// A number of two digits behind another.
fn behind(number: u64, digits: u64) -> u64 {
    number.saturating_mul(100).saturating_add(digits)
}

/// The name of the file behind the folders of a path.
pub(crate) fn file_name(path: &str) -> &str {
    match path.rsplit_once('/') {
        None => path,
        Some((_, name)) => name,
    }
}

/// The folder that a path lies in.
pub(crate) fn folder_of(path: &str) -> &str {
    match path.rsplit_once('/') {
        None => ".",
        Some(("", _)) => "/",
        Some((folder, _)) => folder,
    }
}
