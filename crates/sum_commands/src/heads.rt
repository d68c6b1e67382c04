//! The parts of a sum, taken from the front.

ghost use Rattle.std.specs.Prelude.{◌≡◌, ◌≤◌, ◌+◌, ◌*◌, ◌^◌, length, drop, sum};
ghost use Rattle.spec_machine.specs.Sums.{MAX_PARTS, numbers_of_heads};
ghost use Rattle.sum_commands.specs.Forms.{head_width, written_len, all_written, all_asked, sum_in};

use crate::form::Form;
use ads_base::get32;

// The parts that are left: their heads, and the data that they write.
#[derive(Clone, Copy)]
pub(crate) struct Rest<'a> {
    pub form: Form,
    pub heads: &'a [u8],
    pub written: &'a [u8],
}

// How many bytes the first part writes.
pub(crate) fn first_written(form: Form, heads: &[u8]) -> usize
    requires { head_width form ≤ length heads.now }
    ensures { result ≡ written_len form heads.now }
{
    match form {
        Form::Reads | Form::ToldReads | Form::ShortReads => 0,
        Form::Writes => get32(heads, 8) as usize,
        Form::ReadWrites => get32(heads, 12) as usize,
        Form::Additions | Form::ShortAdditions | Form::Deletions => 0,
    }
}

// The parts behind the first.
#[inline(always)]
pub(crate) fn behind_first<'a>(rest: Rest<'a>) -> Rest<'a>
    requires head { head_width rest.form ≤ length rest.heads.now }
    requires written { written_len rest.form rest.heads.now ≤ length rest.written.now }
    ensures form { result.form ≡ rest.entry.form }
    ensures heads { result.heads.now ≡ drop (head_width rest.entry.form) rest.entry.heads.now }
    ensures written { result.written.now
        ≡ drop (written_len rest.entry.form rest.entry.heads.now) rest.entry.written.now }
{
    let used = first_written(rest.form, rest.heads);
    Rest {
        form: rest.form,
        heads: &rest.heads[rest.form.head()..],
        written: &rest.written[used..],
    }
}

// The bytes behind so many.
pub(crate) fn bytes_behind(bytes: &[u8], len: usize) -> &[u8]
    requires { len ≤ length bytes.now }
    ensures { result.now ≡ drop len bytes.now }
{
    &bytes[len..]
}

// The sum of a number of each head.
fn total(n: u32, width: usize, at: usize, bytes: &[u8]) -> u64
    requires few { n ≤ MAX_PARTS }
    requires inside { at + 4 ≤ width }
    requires heads { width * n ≤ length bytes.now }
    ensures value { result ≡ sum (numbers_of_heads n width at bytes.now) }
    ensures small { result ≤ 500 * 2 ^ 32 }
{
    let mut rest = bytes;
    let mut total = 0u64;
    for _ in 0..n {
        total += get32(rest, at) as u64;
        rest = bytes_behind(rest, width);
    }
    total
}

// How many bytes n parts write.
fn total_written(form: Form, n: u32, bytes: &[u8]) -> u64
    requires few { n ≤ MAX_PARTS }
    requires heads { head_width form * n ≤ length bytes.now }
    ensures value { result ≡ all_written form n bytes.now }
    ensures small { result ≤ 500 * 2 ^ 32 }
{
    match form {
        Form::Reads | Form::ToldReads | Form::ShortReads => 0,
        Form::Writes => total(n, 12, 8, bytes),
        Form::ReadWrites => total(n, 16, 12, bytes),
        Form::Additions | Form::ShortAdditions | Form::Deletions => 0,
    }
}

// How many bytes n parts ask.
fn total_asked(form: Form, n: u32, bytes: &[u8]) -> u64
    requires few { n ≤ MAX_PARTS }
    requires heads { head_width form * n ≤ length bytes.now }
    ensures value { result ≡ all_asked form n bytes.now }
    ensures small { result ≤ 500 * 2 ^ 32 }
{
    match form {
        Form::Reads | Form::ToldReads | Form::ShortReads => total(n, 12, 8, bytes),
        Form::Writes => 0,
        Form::ReadWrites => total(n, 16, 8, bytes),
        Form::Additions | Form::ShortAdditions | Form::Deletions => 0,
    }
}

// How long the data of n parts must be.
pub(crate) fn data_len(form: Form, n: u32, bytes: &[u8]) -> u64
    requires few { n ≤ MAX_PARTS }
    requires heads { head_width form * n ≤ length bytes.now }
    ensures { result ≡ (sum_in form n bytes.now).data_len }
{
    form.heads(n) as u64 + total_written(form, n, bytes)
}

// The greatest length of the reply.
pub(crate) fn reply_len(form: Form, n: u32, bytes: &[u8]) -> u64
    requires few { n ≤ MAX_PARTS }
    requires heads { head_width form * n ≤ length bytes.now }
    ensures { result ≡ (sum_in form n bytes.now).reply_len }
{
    form.fronts(n) as u64 + total_asked(form, n, bytes)
}
