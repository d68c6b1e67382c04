//! Ranges of bytes that are taken.
ghost use Rattle.std.specs.Prelude.{◌≡◌, ◌≤◌, length, IfOk};
ghost use Rattle.description_rules.specs.Taken.{AreInOrder, Takes, IsPlaceOf, is_free_at};

use ads_base::NoMemory;

/// Bytes from a start to an end, which is the first byte behind them.
#[derive(Clone, Copy)]
pub struct ByteRange {
    pub start: u128,
    pub end: u128,
}

/// Takes a range, and tells whether no byte of it was taken before.
pub fn take_range(ranges: &mut Vec<ByteRange>, range: ByteRange) -> Result<bool, NoMemory>
    requires order { AreInOrder ranges.old.items }
    requires wide { range.start ≤ range.end }
    ensures { IfOk result (Takes range ranges.old.items ranges.new.items) }
{
    let place = place_behind(ranges.as_slice(), range.start);
    if !is_free_at(ranges.as_slice(), place, range) {
        return Ok(false);
    }
    ranges.insert(place, range)?;
    Ok(true)
}

// The number of ranges that end before a byte.
fn place_behind(ranges: &[ByteRange], start: u128) -> usize
    requires { AreInOrder ranges.now }
    ensures { IsPlaceOf start ranges.now result }
{
    ranges.partition_point(|r| r.end <= start)
}

// Whether there is no range at a place, or it starts behind this one.
fn is_free_at(ranges: &[ByteRange], place: usize, range: ByteRange) -> bool
    requires { place ≤ length ranges.now }
    ensures { result ≡ is_free_at ranges.now place range }
{
    place == ranges.len() || range.end <= ranges[place].start
}
