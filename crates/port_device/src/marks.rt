//! Marks of the image, one for each 64 bytes, set where a symbol stands that not everybody may write: so most writes ask no table.

ghost use Rattle.std.specs.Prelude.{◌≡◌, ℕ, ◌+◌, ◌*◌, ◌<◌, ◌≤◌, length, get_or, true, false, All, IfOk, IsTrue};
ghost use Rattle.spec_plant.specs.Accepted.{image_size, IMAGE_LIMIT};
ghost use Rattle.type_layout.specs.Descriptions.{sizes_of};
ghost use Rattle.symbol_table.specs.Rows.{symbol_of_row, symbols_of_rows};
ghost use Rattle.port_device.specs.Marks.{is_guarded_row, is_marked, AreMarks, IsMarked, IsWithinRow, KeepsMarks, SetsMarks};

use crate::areas::{span_of, total};
use ads_base::NoMemory;
use std::alloc::Global;
use symbol_table::SymbolRow;
use type_layout::Sizes;

// So many bytes have one mark.
const MARKED: usize = 64;

/// The marks of an image with the symbols of these rows.
pub(crate) fn marks_of(
    alloc: Global,
    sizes: &Sizes,
    rows: &[SymbolRow],
) -> Result<Vec<bool>, NoMemory>
    requires few { image_size (sizes_of sizes.now) ≤ IMAGE_LIMIT }
    requires within { All (IsWithinRow (sizes_of sizes.now)) rows.now }
    ensures { IfOk result (λ marks. AreMarks (sizes_of sizes.now) marks.items (symbols_of_rows rows.now)) }
{
    let count = total(sizes) as usize / MARKED + 1;
    let mut marks = vec![in alloc; false; count]?;
    mark_rows(marks.as_mut_slice(), sizes, rows);
    Ok(marks)
}

fn mark_rows(marks: &mut [bool], sizes: &Sizes, rows: &[SymbolRow])
    requires few { image_size (sizes_of sizes.now) ≤ IMAGE_LIMIT }
    requires within { All (IsWithinRow (sizes_of sizes.now)) rows.now }
    requires long { image_size (sizes_of sizes.now) ≤ 64 * length marks.old }
    ensures { AreMarks (sizes_of sizes.now) marks.new (symbols_of_rows rows.now) }
{
    for row in rows {
        mark_row(marks, sizes, row);
    }
}

// The marks of a symbol's bytes, if it is read-only or has writers.
fn mark_row(marks: &mut [bool], sizes: &Sizes, row: &SymbolRow)
    requires few { image_size (sizes_of sizes.now) ≤ IMAGE_LIMIT }
    requires within { IsWithinRow (sizes_of sizes.now) row.now }
    requires long { image_size (sizes_of sizes.now) ≤ 64 * length marks.old }
    ensures marked { IsMarked (sizes_of sizes.now) marks.new (symbol_of_row row.now) }
    ensures keeps { KeepsMarks marks.old marks.new }
    ensures long { length marks.new ≡ length marks.old }
{
    if !is_guarded(row) {
        return;
    }
    let span = span_of(sizes, row.area, row.at, row.len);
    set_marks(marks, span.at, span.len);
}

fn is_guarded(row: &SymbolRow) -> bool
    ensures { result ≡ is_guarded_row row.now }
{
    row.read_only || row.writers.len() > 0
}

// Sets the marks of some bytes.
fn set_marks(marks: &mut [bool], at: u32, len: u32)
    requires { at + len ≤ 64 * length marks.old }
    ensures set { (i : ℕ) → at ≤ i → i < at + len → is_marked marks.new i ≡ true }
    ensures keeps { KeepsMarks marks.old marks.new }
    ensures long { length marks.new ≡ length marks.old }
{
    if len == 0 {
        return;
    }
    let last = at as usize + (len as usize - 1);
    set_run(marks, at as usize / MARKED, last / MARKED + 1);
}

fn set_run(marks: &mut [bool], first: usize, until: usize)
    requires { until ≤ length marks.old }
    ensures { SetsMarks marks.old marks.new first until }
{
    for k in first..until {
        marks[k] = true;
    }
}

/// Whether no mark of some bytes of an image is set.
#[inline(always)]
pub(crate) fn are_clear(marks: &[bool], at: u32, len: u32) -> bool
    requires { at + len ≤ 64 * length marks.now }
    ensures { IsTrue result → (i : ℕ) → at ≤ i → i < at + len → is_marked marks.now i ≡ false }
{
    if len == 0 {
        return true;
    }
    let last = at as usize + (len as usize - 1);
    is_clear(marks, at as usize / MARKED, last / MARKED + 1)
}

#[inline(always)]
fn is_clear(marks: &[bool], first: usize, until: usize) -> bool
    requires { until ≤ length marks.now }
    ensures { IsTrue result → (k : ℕ) → first ≤ k → k < until → get_or marks.now k false ≡ false }
{
    for k in first..until {
        if marks[k] {
            return false;
        }
    }
    true
}
